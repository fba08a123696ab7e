// What an entry is, by its operation.
use crate::list::IllFormed;
use definitions::operation::Filter;

// The part of another entry, a pack, a call on it, or the end of the list.
#[derive(Clone, Copy)]
pub enum Operation {
    Part,
    Pack,
    Call(Call),
    End,
}

// Any operation, as the list tells it by a number. The definitions have `Question` and `Writing`, and a question there holds its names, which
// stand in words of their own here.
#[derive(Clone, Copy)]
pub enum Call {
    Check,
    Rewrite,
    AllKinds,
    KindsOf,
    Lean,
    Filtered(Filter),
    Resolve,
}

impl TryFrom<u32> for Operation {
    type Error = IllFormed;

    fn try_from(number: u32) -> Result<Self, IllFormed> {
        Ok(match number {
            0 => Operation::Part,
            1 => Operation::Pack,
            2 => Operation::Call(Call::Check),
            3 => Operation::Call(Call::Rewrite),
            4 => Operation::Call(Call::AllKinds),
            5 => Operation::Call(Call::KindsOf),
            6 => Operation::Call(Call::Lean),
            7 => Operation::Call(Call::Filtered(Filter::Direct)),
            8 => Operation::Call(Call::Filtered(Filter::Innermost)),
            9 => Operation::Call(Call::Filtered(Filter::Alias)),
            10 => Operation::Call(Call::Filtered(Filter::Unresolved)),
            11 => Operation::Call(Call::Resolve),
            12 => Operation::End,
            _ => return Err(IllFormed),
        })
    }
}
