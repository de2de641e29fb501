// Scripts that are generated.

use super::same;
use ped_gen::{Shape, gen_script};
use std::test::Fail;

static SIZES: [(Shape, u64, bool); 11] = [
    (Shape::Fib, 0, true),
    (Shape::Fib, 30, true),
    (Shape::Fib, 31, false),
    (Shape::Tree, 0, true),
    (Shape::Tree, 20, true),
    (Shape::Tree, 21, false),
    (Shape::Loop, 0, false),
    (Shape::Loop, 1, true),
    (Shape::Loop, 4096, true),
    (Shape::Loop, 4097, false),
    (Shape::Fib, 18_446_744_073_709_551_615, false),
];

#[test]
fn sizes_have_limits(rt: HostRuntime) {
    for &(shape, size, fits) in &SIZES {
        same(&rt, size, shape.fits(size), fits);
    }
}

static SCRIPTS: [(Shape, u64, &[u8]); 3] = [
    (
        Shape::Fib,
        20,
        b"fn fib(n) {\n  let a = n;\n  let b = 0;\n  if n >= 2 {\n    a = spawn fib(n - 1);\n    b = call fib(n - 2);\n    sync;\n  }\n  return a + b;\n}\nfn main() {\n  let r = call fib(20);\n  print r;\n  return 0;\n}\n",
    ),
    (
        Shape::Tree,
        0,
        b"fn tree(n) {\n  let a = 0;\n  let b = 0;\n  if n == 0 {\n    a = draw;\n    b = 1;\n  } else {\n    a = spawn tree(n - 1);\n    b = spawn tree(n - 1);\n    sync;\n  }\n  return a + b;\n}\nfn main() {\n  let s = call tree(0);\n  print s;\n  return 0;\n}\n",
    ),
    (
        Shape::Loop,
        4096,
        b"fn cell(i) {\n  let x = draw;\n  return i * i + x % 10;\n}\nfn main() {\n  let a[4096];\n  let s = 0;\n  let i = 0;\n  pfor k in 0..4096 into a call cell(k);\n  while i < 4096 {\n    s = s + a[i];\n    i = i + 1;\n  }\n  print s;\n  return 0;\n}\n",
    ),
];

#[test]
fn scripts_have_the_size_in_decimal(rt: HostRuntime) -> Result<(), Fail> {
    for &(shape, size, text) in &SCRIPTS {
        same(
            &rt,
            size,
            gen_script(rt.alloc(), shape, size)?.as_slice(),
            text,
        );
    }
    Ok(())
}
