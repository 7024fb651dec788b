// A listing in memory that the caller lends.
ghost use Rattle.std.specs.Prelude.{◌≡◌, ◌≤◌, min, length};

// Memory with what is written in it at the front.
#[derive(Drop)]
pub struct Listing<'a> {
    pub(crate) memory: &'a mut [u8],
    pub(crate) used: usize,
    ghost within: { used ≤ length memory.now },
}

impl<'a> Listing<'a> {
    // Memory whose first `used` bytes are written already, or all of it if it has no more.
    pub fn new(memory: &'a mut [u8], used: usize) -> Listing<'a>
        ensures used { result.used ≡ min used (length memory.old) }
        ensures memory { result.memory.now ≡ memory.old }
        ensures lender { result.memory.ghost_name ≡ memory.entry.ghost_name }
    {
        let used = used.min(memory.len());
        Listing { memory, used }
    }
}
