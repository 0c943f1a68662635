ghost use Rattle.std.specs.Prelude.{◌≡◌, ◌-◌, ◌<◌, ◌^◌};

/// How deep the parser may go on: the levels of nodes and brackets that are left, and how many brackets may be open.
#[derive(Clone, Copy, Debug)]
pub struct Depth {
    pub levels: u64,
    pub brackets: u64,
    pub ghost few: { levels < 2 ^ 63 },
}

impl Depth {
    /// With a level less.
    pub fn inside(self) -> Depth
        requires { 0 < self.levels }
        ensures levels { result.levels ≡ self.levels - 1 }
        ensures brackets { result.brackets ≡ self.brackets }
    {
        Depth {
            levels: self.levels - 1,
            brackets: self.brackets,
        }
    }
}
