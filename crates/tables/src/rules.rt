// Rules 1 and 2 over a whole file.
ghost use Rattle.std.specs.Prelude.{◌≡◌, cond, ◌<◌, ◌≤◌, length};
ghost use Rattle.refusals.specs.Verdict.{Accepted, Refused};
ghost use Rattle.refusals.specs.declared.Refusal.TheVariants.{Names};
ghost use Rattle.tables.specs.Table.{starts};
ghost use Rattle.tables.specs.Reading.{kept_line, FormChecked};

use crate::{lines, row};
use refusals::{Broken, Refusal, Verdict};

// Whether the file's start is the names line, byte 10 included.
#[tactic(auto, using(crate::proofs::NamesLine::starts_as))]
pub fn has_names(file: &[u8], names: &[u8]) -> bool
    ensures { result ≡ starts names.now file.now }
{
    file.starts_with(names)
}

// Rule 1, with the names line, byte 10 included.
pub fn check_names(file: &[u8], names: &[u8]) -> Verdict
    ensures { result ≡ cond (starts names.now file.now) Accepted (Refused Names 1) }
{
    if !has_names(file, names) {
        return Err(Broken {
            rule: Refusal::Names,
            line: 1,
        });
    }
    Ok(())
}

// Keeps the numbers of value line n, if it is one of the first 64.
#[tactic(auto, unfolding(crate::specs::Reading::kept_line))]
fn keep_line(store: &mut [u32], n: usize, values: [u32; 7])
    requires { 448 ≤ length store.old }
    ensures { store.new ≡ kept_line store.old n values }
{
    if n < 64 {
        let at = n * 7;
        store[at..at + 7].copy_from_slice(&values);
    }
}

// Rule 2, which a reader tries behind rule 1 (one function over both would be told as much as both are), over every line of the file, also past those that a record has room for; accepted, it gives the
// number of value lines. The store gets the numbers of the first 64 lines, seven places a line, so that a
// reader need not look again.
pub fn check_lines(file: &[u8], k: usize, store: &mut [u32]) -> Result<usize, Broken>
    requires { (0 < k) × (k ≤ 7) × (448 ≤ length store.old) }
    ensures { FormChecked k file.now result store.new }
{
    let mut at = lines::next_line(file, 0);
    let mut n = 0;
    // Not a range: only a line that is read says where the next one starts, and if there is one.
    while at < file.len() {
        let Some(line) = row::read_line(&file[at..], k) else {
            return Err(Broken {
                rule: Refusal::Form,
                line: n + 2,
            });
        };
        keep_line(store, n, line.values);
        at += line.length;
        n += 1;
    }
    Ok(n)
}
