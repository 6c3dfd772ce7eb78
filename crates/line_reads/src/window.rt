ghost use Rattle.std.specs.Prelude.{◌≤◌, length};

// A window of a stream: the bytes from `from` to `held` are read and not yet given.
#[derive(Drop)]
pub struct Lines {
    pub window: [u8; 4096],
    pub from: usize,
    pub held: usize,
    ghost in_order: { from ≤ held },
    ghost in_window: { held ≤ length window },
}
