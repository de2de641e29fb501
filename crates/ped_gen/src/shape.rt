ghost use Rattle.std.specs.Prelude.{◌↔◌, IsTrue};
ghost use Rattle.ped_gen.specs.Shapes.{Fits};

/// The kinds of generated scripts.
#[derive(Clone, Copy, Debug, PartialEq, Eq)]
pub enum Shape {
    /// The Fibonacci number of the size, by a recursion that spawns one of its two calls.
    Fib,
    /// Adds up one draw and a 1 for each leaf of a full binary tree of this height. All calls but main's are spawned.
    Tree,
    /// A parallel loop of this many iterations, and the sum of their values.
    Loop,
}

impl Shape {
    /// Whether a script of this shape may have this size: at most 30 for `Fib`, at most 20 for `Tree`, from 1 to 4096 for `Loop`,
    /// whose size is the length of an array.
    pub fn fits(self, n: u64) -> bool
        ensures { IsTrue result ↔ Fits self n }
    {
        match self {
            Shape::Fib => n <= 30,
            Shape::Tree => n <= 20,
            Shape::Loop => 1 <= n && n <= 4096,
        }
    }
}
