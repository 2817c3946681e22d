ghost use Rattle.std.specs.Prelude.{◌≡◌, ◌-◌, ◌^◌, min};
ghost use Rattle.bash_params.specs.Cost.{match_cost as match_cost_of, replace_cost as replace_cost_of};

/// The steps that a match or a strip costs, of a text of so many bytes with a pattern of so many marks: one for each 64
/// bytes, once and once more for each 16 marks. 18446744073709551615 where that is more.
pub fn match_cost(bytes: usize, marks: usize) -> u64
    ensures { result ≡ min (match_cost_of bytes marks) (2 ^ 64 - 1) }
{
    (bytes as u64 / 64).saturating_mul(marks as u64 / 16 + 1)
}

/// The steps that a replacement costs: those of a match, for each 64 bytes of the text. 18446744073709551615 where that is
/// more.
#[tactic(auto, using(crate::proofs::Capped::capped_more))]
pub fn replace_cost(bytes: usize, marks: usize) -> u64
    ensures { result ≡ min (replace_cost_of bytes marks) (2 ^ 64 - 1) }
{
    (bytes as u64 / 64).saturating_mul(match_cost(bytes, marks))
}
