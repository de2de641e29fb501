// Scripts that several tests run.

/// It prints 1.
pub const ONE: &str = "fn main() { print 1; return 0; }";

/// Draws of main, at the ranks 0 to 2.
pub const DRAWS: &str =
    "fn main() { let a = draw; let b = draw; let c = draw; print a; print b; print c; return 0; }";

/// A child gives a value.
pub const SUM: &str =
    "fn two() { let x = 1 + 1; return x; } fn main() { let a = spawn two(); print 5; sync; print a + 1; return 0; }";

/// A loop whose iterations give the squares of 0 to 4.
pub const SQUARES: &str =
    "fn sq(i) { return i * i; } fn main() { let a[5]; pfor i in 0..5 into a call sq(i); let k = 0; while k < 5 { print a[k]; k = k + 1; } return 0; }";

/// A child's draw, at 0.0, and then main's, at 1.
pub const TWO_DRAWS: &str =
    "fn f() { let x = draw; return x; } fn main() { let a = spawn f(); let b = draw; sync; print a; print b; return 0; }";

/// A loop whose iterations draw, at 0.0.0 to 0.4.0.
pub const ROLLS: &str =
    "fn roll(i) { let x = draw; return x % 100; } fn main() { let a[5]; pfor i in 0..5 into a call roll(i); let k = 0; while k < 5 { print a[k]; k = k + 1; } return 0; }";

/// The child ends by a fault, and main goes on until its budget is spent.
pub const FAULTY_CHILD: &str =
    "fn bad() { let z = 0; return 1 / z; } fn main() { print 7; let a = spawn bad(); let i = 0; while i == 0 { i = 0; } sync; print a; return 0; }";

/// The first child ends by a fault, and nothing of the second one counts.
pub const FAULT_BEFORE_ANOTHER: &str =
    "fn bad() { let z = 0; return 1 / z; } fn ok() { return 1; } fn main() { spawn bad(); spawn ok(); sync; return 0; }";

/// Each iteration awaits the child of the one before.
pub const PENDING_SYNCED: &str =
    "fn f() { return 1; } fn main() { let x = 0; let i = 0; while i < 2 { sync; x = x + 1; x = spawn f(); i = i + 1; } sync; print x; return 0; }";
