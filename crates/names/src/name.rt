// A name of at most 16 bytes, in fixed memory. Cards can be copied, and the kit's `ArrayVec` cannot.
ghost use Rattle.std.specs.Prelude.{◌≡◌, ◌≤◌, ◌-◌, length, take, drop, replicate};
ghost use Rattle.std.specs.Str.{bytes_eq};

// The bytes after the first `len` are no part of the name. They are 0, so that two names are compared by their whole blocks.
#[derive(Clone, Copy)]
pub struct Name {
    bytes: [u8; 16],
    len: u8,
    ghost short: { len ≤ 16 },
    ghost padded: { drop len bytes ≡ replicate (16 - len) 0 },
}

impl Name {
    pub fn of(name: &[u8]) -> Name
        requires { length name.now ≤ 16 }
        ensures { take result.len result.bytes ≡ name.now }
    {
        let mut bytes = [0; 16];
        bytes[..name.len()].copy_from_slice(name);
        Name {
            bytes,
            len: name.len() as u8,
        }
    }

    // Whether the two are the same name. Two blocks are compared at once, wherever the names differ, so they come first.
    #[tactic(auto, using(crate::proofs::Blocks::same_blocks, crate::proofs::Blocks::other_blocks))]
    pub fn is(&self, other: &Name) -> bool
        ensures { result ≡ bytes_eq (take self.now.len self.now.bytes) (take other.now.len other.now.bytes) }
    {
        self.bytes == other.bytes && self.len == other.len
    }
}
