ghost use Rattle.std.specs.Prelude.{◌≡◌, IfOk, decimal};
ghost use Rattle.ped_gen.specs.Shapes.{Fits};
ghost use Rattle.ped_gen.specs.Scripts.{fib_text, tree_text, loop_text, generated};

use crate::memory::Memory;
use crate::shape::Shape;
use itoa::Buffer;
use std::alloc::Global;

/// The script of this shape and size, in canonical text. What it prints was tried for some sizes and is in no clause: for `Fib` the
/// Fibonacci number of the size (0, 1, 1, 2, ..); where every draw is 0, for `Tree` 2 to the power of the size, and for `Loop` the
/// sum of the squares of all numbers below it. Only running out of memory makes it `Err`.
pub fn gen_script(alloc: Global, shape: Shape, n: u64) -> Result<Vec<u8>, Memory>
    requires { Fits shape n }
    ensures { IfOk result (λ text. text.items ≡ generated shape n) }
{
    let mut buffer = Buffer::new();
    let size = buffer.format(n).as_bytes();
    match shape {
        Shape::Fib => fib_script(alloc, size),
        Shape::Tree => tree_script(alloc, size),
        Shape::Loop => loop_script(alloc, size),
    }
}

fn fib_script(alloc: Global, size: &[u8]) -> Result<Vec<u8>, Memory>
    ensures { IfOk result (λ text. text.items ≡ fib_text size.now) }
{
    let mut text = Vec::from_slice(
        alloc,
        b"fn fib(n) {
  let a = n;
  let b = 0;
  if n >= 2 {
    a = spawn fib(n - 1);
    b = call fib(n - 2);
    sync;
  }
  return a + b;
}
fn main() {
  let r = call fib(",
    )?;
    text.extend_from_slice(size)?;
    text.extend_from_slice(
        b");
  print r;
  return 0;
}
",
    )?;
    Ok(text)
}

fn tree_script(alloc: Global, size: &[u8]) -> Result<Vec<u8>, Memory>
    ensures { IfOk result (λ text. text.items ≡ tree_text size.now) }
{
    let mut text = Vec::from_slice(
        alloc,
        b"fn tree(n) {
  let a = 0;
  let b = 0;
  if n == 0 {
    a = draw;
    b = 1;
  } else {
    a = spawn tree(n - 1);
    b = spawn tree(n - 1);
    sync;
  }
  return a + b;
}
fn main() {
  let s = call tree(",
    )?;
    text.extend_from_slice(size)?;
    text.extend_from_slice(
        b");
  print s;
  return 0;
}
",
    )?;
    Ok(text)
}

fn loop_script(alloc: Global, size: &[u8]) -> Result<Vec<u8>, Memory>
    ensures { IfOk result (λ text. text.items ≡ loop_text size.now) }
{
    let mut text = Vec::from_slice(
        alloc,
        b"fn cell(i) {
  let x = draw;
  return i * i + x % 10;
}
fn main() {
  let a[",
    )?;
    text.extend_from_slice(size)?;
    text.extend_from_slice(
        b"];
  let s = 0;
  let i = 0;
  pfor k in 0..",
    )?;
    text.extend_from_slice(size)?;
    text.extend_from_slice(
        b" into a call cell(k);
  while i < ",
    )?;
    text.extend_from_slice(size)?;
    text.extend_from_slice(
        b" {
    s = s + a[i];
    i = i + 1;
  }
  print s;
  return 0;
}
",
    )?;
    Ok(text)
}
