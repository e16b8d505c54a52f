// The base that the numbers of a list are written in: how many digits it has, at most sixteen.
ghost use Rattle.std.specs.Prelude.{◌≤◌};

#[derive(Clone, Copy)]
pub struct Base {
    pub value: u32,
    ghost small: { value ≤ 16 },
}
