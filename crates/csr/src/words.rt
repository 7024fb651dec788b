// A bit of a word.
ghost use Rattle.std.specs.Prelude.{◌≡◌};
ghost use Rattle.csr.specs.Words.{flag};

#[tactic(auto, using(crate::proofs::Flags::none_above))]
pub fn flag(word: u32, k: u32) -> bool
    ensures { result ≡ flag word k }
{
    match word.checked_shr(k) {
        Some(rest) => rest % 2 == 1,
        None => false,
    }
}
