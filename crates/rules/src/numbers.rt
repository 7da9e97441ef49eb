// Numbers for the refusals of a caller's own: those that no reason of the libraries has.
ghost use Rattle.std.specs.Prelude.{◌≡◌, false};
ghost use Rattle.rules.specs.Numbers.{is_named};

// A number that no reason has by its name.
#[derive(Clone, Copy, Debug, PartialEq, Eq)]
pub struct OtherNumber {
    pub number: usize,
    ghost free: { is_named number ≡ false },
}
