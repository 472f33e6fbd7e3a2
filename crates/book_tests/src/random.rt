// Numbers that look random: the same at each run.
ghost use Rattle.std.specs.Prelude.{◌<◌};

#[derive(Clone, Copy)]
pub struct Random {
    state: u32,
}

impl Random {
    pub fn starting_at(start: u32) -> Random {
        Random { state: start }
    }

    // A number below the bound.
    pub fn below(&mut self, bound: u8) -> u8
        requires { 0 < bound }
        ensures { result < bound }
    {
        self.state = self.state.wrapping_mul(1664525).wrapping_add(1013904223);
        ((self.state >> 16) % u32::from(bound)) as u8
    }
}
