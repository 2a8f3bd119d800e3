ghost use Rattle.std.specs.Prelude.{◌≡◌};
ghost use Rattle.worlds.specs.Geometry as spec;

/// The shape of a block.
#[derive(Clone, Copy, Debug, PartialEq, Eq)]
pub enum Shape {
    Tet,
    Cube,
    Dodec,
}

impl Shape {
    /// The number of faces.
    pub fn faces(self) -> u8
        ensures value { result ≡ spec.faces self }
    {
        match self {
            Shape::Tet => 4,
            Shape::Cube => 6,
            Shape::Dodec => 12,
        }
    }
}

/// The size of a block.
#[derive(Clone, Copy, Debug, PartialEq, Eq)]
pub enum Size {
    Small,
    Medium,
    Large,
}

impl Size {
    /// The rank among the sizes, from 1 for the smallest.
    pub fn rank(self) -> u8
        ensures value { result ≡ spec.rank self }
    {
        match self {
            Size::Small => 1,
            Size::Medium => 2,
            Size::Large => 3,
        }
    }
}

/// Which of the six names a block has.
#[derive(Clone, Copy, Debug, PartialEq, Eq)]
pub struct Names {
    pub a: bool,
    pub b: bool,
    pub c: bool,
    pub d: bool,
    pub e: bool,
    pub f: bool,
}

impl Names {
    /// Whether the letter is one of the names.
    pub fn bears(self, letter: u8) -> bool
        ensures value { result ≡ spec.bears self letter }
    {
        match letter {
            b'a' => self.a,
            b'b' => self.b,
            b'c' => self.c,
            b'd' => self.d,
            b'e' => self.e,
            b'f' => self.f,
            _ => false,
        }
    }
}

/// A block on a board of eight columns and eight rows.
#[derive(Clone, Copy, Debug, PartialEq, Eq)]
pub struct Block {
    pub names: Names,
    pub shape: Shape,
    pub size: Size,
    /// From 1, the leftmost, to 8.
    pub column: u8,
    /// From 1, the frontmost, to 8.
    pub row: u8,
}
