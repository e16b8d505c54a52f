// The affixes of a block, as three lists that are as long as one another.
ghost use Rattle.std.specs.Prelude.{◌≡◌, length};

// Each has a prefix, a suffix, and a flag: whether it is nested.
#[derive(Clone, Copy)]
pub struct Affixes<'a> {
    pub prefixes: &'a [u32],
    pub suffixes: &'a [u32],
    pub nests: &'a [bool],
    ghost behind: { length suffixes.now ≡ length prefixes.now },
    ghost flags: { length nests.now ≡ length prefixes.now },
}
