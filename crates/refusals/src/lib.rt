// The refusal list of documents 01 and 02, and the verdict of a rule on a file or a record.
#![tactic(auto)]

pub mod search;

ghost use Rattle.std.specs.Prelude.{◌≡◌, ◌≤◌};
ghost use Rattle.refusals.specs.Refusal.{number_of};
ghost use Rattle.refusals.specs.Verdict.{line_verdict, no_line, rule3};

// One case for each rule: those of document 01 in checking order, then those of the requests of document 02 by number.
#[derive(Clone, Copy)]
pub enum Refusal {
    Names = 1,
    Form = 2,
    LineCount = 3,
    Range = 4,
    ResourceGap = 5,
    NoPartner = 6,
    PointOrder = 7,
    RepeatedPoint = 8,
    UnusedField = 9,
    NoParts = 10,
    CommonPart = 11,
    TargetPoint = 12,
    TooManyPositions = 13,
    TooShort = 14,
    NotRealisable = 15,
    RunRange = 16,
    OutcomeRange = 17,
    NotOpen = 18,
    AtEnd = 19,
    // [1] Stations have limits: a limit's resource isn't below R, or the lines don't rise by resource.
    LimitResource = 20,
    // [2] Which process to install: the cell already has 64 lines.
    FullCell = 21,
    // [4] Points that nothing leads to: no chain of `then` and `else` from point 0 reaches a point.
    UnreachedPoint = 22,
    // [6] Reject gates: an act 4 line has no act 1 line of its resource, from and arg, or is the second with these.
    RejectLine = 23,
    // [7] Recipes in chapters: none or more than 8, or an earlier one begins at an end.
    Chapters = 24,
    // [13] One panel for eight runs: a run number of 8 or more.
    RunNumber = 25,
}

// A rule that is broken, and the line that it names (0 for none).
#[derive(Clone, Copy)]
pub struct Broken {
    pub rule: Refusal,
    pub line: usize,
}

// What a rule says: nothing against it, or that it is broken.
pub type Verdict = Result<(), Broken>;

// The number by which documents 01 and 02 list the refusal.
pub fn number(refusal: Refusal) -> u8
    ensures { result ≡ number_of refusal }
{
    refusal as u8
}

// The verdict of a rule whose first breaking value line is `first`, of `count` lines.
#[tactic(auto, unfolding(crate::specs::Verdict::line_verdict))]
pub fn at_line(refusal: Refusal, first: usize, count: usize) -> Verdict
    requires { count ≤ 64 }
    ensures { result ≡ line_verdict refusal first count }
{
    if first < count {
        Err(Broken {
            rule: refusal,
            line: first + 2,
        })
    } else {
        Ok(())
    }
}

// The verdict of a rule that names no line.
#[tactic(auto, unfolding(crate::specs::Verdict::no_line))]
pub fn no_line(refusal: Refusal, is_broken: bool) -> Verdict
    ensures { result ≡ no_line refusal is_broken }
{
    if is_broken {
        Err(Broken {
            rule: refusal,
            line: 0,
        })
    } else {
        Ok(())
    }
}

// Rule 3: there are no lines, or over 64.
#[tactic(auto, unfolding(crate::specs::Verdict::rule3))]
pub fn check_count(count: usize) -> Verdict
    ensures { result ≡ rule3 count }
{
    no_line(Refusal::LineCount, count == 0 || 64 < count)
}
