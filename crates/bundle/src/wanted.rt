// A name that is looked for: in two parts under a mask, so that nobody needs room to join them, and a byte of it that is asked first.
ghost use Rattle.std.specs.Prelude.{◌≡◌, ◌<◌, get_or};
ghost use Rattle.bundle.specs.Spelled.{spelled};

#[derive(Clone, Copy)]
pub(crate) struct Wanted<'a> {
    pub(crate) prefix: &'a [u8],
    pub(crate) id: &'a [u8],
    pub(crate) mask: u8,
    pub(crate) probe: usize,
    pub(crate) byte: u8,
    ghost probe_short: { probe < 40 },
    ghost probed: { byte ≡ get_or (spelled mask prefix.now id.now) probe 0 },
}
