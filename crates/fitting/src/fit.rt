// What the fit test says.
ghost use Rattle.std.specs.Prelude.{◌≤◌};

use waiting::Mode;

// The mode that the group's child is laid in, flat or broken, with the steps left.
#[derive(Clone, Copy)]
pub struct Fit {
    pub mode: Mode,
    pub left: u32,
    ghost yes_or_no: { mode.0 ≤ 1 },
}
