// Searches over the numbers below a bound: the lines of a file, the parts, the resources. Where nothing is found the bound stands for
// it, and no None, since `first_below` of specs/Search has it so, by which the rules are defined. The other two stand beside it since their
// contracts are the definitions of their names, which an iterator's are not.
ghost use Rattle.std.specs.Prelude.{◌≡◌, Bool, ℕ, ◌<◌};
ghost use Rattle.refusals.specs.Search.{first_below, any_below, all_below, Answers};

// The first number below `count` at which the test holds, or `count`.
pub fn first_below<F: Fn(usize) -> bool>(count: usize, holds: F) -> usize
    requires { (n : ℕ) → n < count → F.pre holds n }
    ensures { (f : ℕ → Bool) → Answers (F.post holds) f count → result ≡ first_below f count }
{
    for n in 0..count {
        if holds(n) {
            return n;
        }
    }
    count
}

// Whether the test holds at some number below `count`.
pub fn any_below<F: Fn(usize) -> bool>(count: usize, holds: F) -> bool
    requires { (n : ℕ) → n < count → F.pre holds n }
    ensures { (f : ℕ → Bool) → Answers (F.post holds) f count → result ≡ any_below f count }
{
    for n in 0..count {
        if holds(n) {
            return true;
        }
    }
    false
}

// Whether the test holds at each number below `count`.
pub fn all_below<F: Fn(usize) -> bool>(count: usize, holds: F) -> bool
    requires { (n : ℕ) → n < count → F.pre holds n }
    ensures { (f : ℕ → Bool) → Answers (F.post holds) f count → result ≡ all_below f count }
{
    for n in 0..count {
        if !holds(n) {
            return false;
        }
    }
    true
}
