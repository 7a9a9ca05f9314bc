// A call that refuses says a number and a value (01, "When a call says no"). The causes are an error enum's cases; what
// their numbers and values are, is this trait's.
#![tactic(auto)]

ghost use Rattle.std.specs.Prelude.{◌≡◌, ◌≢◌, ℕ};
ghost use Rattle.refusal.specs.Numbers.{number_of, value_of};

pub trait Refusal: Copy {
    ghost number_by: { Self → ℕ };

    ghost value_by: { Self → ℕ };

    // The papers' number.
    fn number(self) -> u32
        ensures { result ≡ number_by self };

    // The papers' value: an offset, a segment index, a size or a count, 0 where a cause returns none.
    fn value(self) -> usize
        ensures { result ≡ value_by self };

    // 0 is the number of success alone.
    ghost never_0: { (refusal : Self) → number_by refusal ≢ 0 };
}

// The papers' number of an outcome: 0 of success.
pub fn number_of<T: Copy, E: Refusal>(outcome: Result<T, E>) -> u32
    ensures { result ≡ number_of E.number_by outcome }
{
    match outcome {
        Ok(_) => 0,
        Err(refusal) => refusal.number(),
    }
}

// The papers' value of an outcome: of success the number that it holds.
pub fn value_of<E: Refusal>(outcome: Result<usize, E>) -> usize
    ensures { result ≡ value_of E.value_by outcome }
{
    match outcome {
        Ok(value) => value,
        Err(refusal) => refusal.value(),
    }
}
