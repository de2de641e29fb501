// The help texts.

/// Name and version.
pub const VERSION: &str = "pedrun 1.0.0\n";

/// `pedrun --help`.
pub const PROGRAM: &str = "\
pedrun runs fork-join scripts on several workers. What a script does between two
draws, new objects, spawns, syncs, parallel loops, and beginnings and ends of
scopes is a strand. Each strand has a name, its pedigree, that no schedule can
change, and a random draw is a hash of its strand's name: a run prints the same
bytes again, on any machine with any workers.

Usage: pedrun COMMAND [--OPTION VALUE]...
       pedrun COMMAND --help
       pedrun --help
       pedrun --version

Commands:
  run      runs the script on standard input and prints its lines
  serial   prints what run prints, without workers
  sim      prints which worker of a simulated run ends the script, and then what
           run prints
  check    prints ok where the script on standard input is valid
  fmt      prints the script on standard input in canonical text
  replay   prints what one strand of the script on standard input did
  hash     prints the dot product of a pedigree and its draw
  gen      prints a script of a shape and a size
  stream   prints the draws of consecutive ranks
  span     prints how many events the script has, and how long their longest
           chain is
  batch    prints what run prints under each seed of a list

Options, in any order, each at most once:
  --seed N         the seed of the draws, from 0 to 18446744073709551615
                   (default 0)
  --gamma N,N,..   the coefficients of the draws in place of a seed, each below
                   18446744073709551557, at most as many as the depth
  --depth N        how many ranks a pedigree may have, from 1 to 512
                   (default 256)
  --budget N       how many steps each instance may make, from 1 to 4294967295
                   (default 1000000)
  --rounds N       how often a draw is mixed, from 0 to 8 (default 4)
  --workers N      how many threads, from 1 to 64 (default 4)
  --show WHAT      plain, or log to see draws and objects too (default plain)
  --number N       which simulation it is, from 0 to 18446744073709551615
  --at PEDIGREE    the name of a strand, such as 0.3.1: from 1 to 512 ranks,
                   each from 0 to 4294967295; a rank counts the draws, new
                   objects, spawns, syncs, loops and scopes of an instance
  --shape SHAPE    fib, tree or loop
  --size N         at most 30 for fib, at most 20 for tree, from 1 to 4096 for
                   loop
  --count N        how many draws a stream has, from 1 to 1048576
  --below N        what each draw of a stream is reduced by, from 1 to
                   18446744073709551615 (default: it is printed whole)
  --seeds N,N,..   the seeds of a batch, from 1 to 256 of them, each from 0 to
                   18446744073709551615

Exit status:
  0  the whole output was written
  1  the whole output was written, and its last line is a fault's, or a run of a
     batch ended by a fault
  2  the words are no command
  3  the script is too long, is no script of the grammar, or isn't valid
  4  a read of the script failed
  5  a write of the output failed
  6  out of memory; nothing was written
  7  no strand has the pedigree, or a fault stands on the way to it (replay)

Example:
  $ echo 'fn main() { let x = draw; print x; return 0; }' > draw.ped
  $ pedrun run --seed 7 < draw.ped

docs/TUTORIAL.md begins from nothing, and docs/ERRORS.md says what to do about
each line.
";

/// `pedrun run --help`.
pub const RUN: &str = "\
Runs the script on standard input on several workers, and prints its lines: the
same as pedrun serial prints, whatever the workers do.

Usage: pedrun run [--OPTION VALUE]... < SCRIPT

Options, in any order, each at most once; a gamma excludes a seed:
  --seed N         the seed of the draws, from 0 to 18446744073709551615
                   (default 0)
  --gamma N,N,..   the coefficients of the draws in place of a seed, each below
                   18446744073709551557, at most as many as the depth
  --depth N        how many ranks a pedigree may have, from 1 to 512
                   (default 256)
  --budget N       how many steps each instance may make, from 1 to 4294967295
                   (default 1000000)
  --rounds N       how often a draw is mixed, from 0 to 8 (default 4)
  --workers N      how many threads, from 1 to 64 (default 4)
  --show WHAT      plain, or log to see draws and objects too (default plain)

Exit status: 0; 1 where the last line is a fault's; 2 faulty words; 3 no valid
script; 4 a failed read; 5 a failed write; 6 out of memory.

Example:
  $ pedrun run --seed 7 --workers 8 < examples/pi.ped
";

/// `pedrun serial --help`.
pub const SERIAL: &str = "\
Runs the script on standard input in serial order, without workers, and prints
its lines: the same as pedrun run prints.

Usage: pedrun serial [--OPTION VALUE]... < SCRIPT

Options, in any order, each at most once; a gamma excludes a seed:
  --seed N         the seed of the draws, from 0 to 18446744073709551615
                   (default 0)
  --gamma N,N,..   the coefficients of the draws in place of a seed, each below
                   18446744073709551557, at most as many as the depth
  --depth N        how many ranks a pedigree may have, from 1 to 512
                   (default 256)
  --budget N       how many steps each instance may make, from 1 to 4294967295
                   (default 1000000)
  --rounds N       how often a draw is mixed, from 0 to 8 (default 4)
  --show WHAT      plain, or log to see draws and objects too (default plain)

Exit status: 0; 1 where the last line is a fault's; 2 faulty words; 3 no valid
script; 4 a failed read; 5 a failed write; 6 out of memory.

Example:
  $ pedrun serial --seed 7 < examples/pi.ped
";

/// `pedrun sim --help`.
pub const SIM: &str = "\
Simulates a run of the script on standard input, without threads: in each step
one worker runs a task to its next stop, takes up one of its own, or steals one.
The words of a number, those of SplitMix64, pick the steps. It prints the line
worker W, with the worker that ended the script, counted from 0, and then what
pedrun run prints.

Usage: pedrun sim --number N [--OPTION VALUE]... < SCRIPT

Options, in any order, each at most once; a gamma excludes a seed:
  --number N       the number whose words pick the steps, from 0 to
                   18446744073709551615 (must be given)
  --seed N         the seed of the draws, from 0 to 18446744073709551615
                   (default 0)
  --gamma N,N,..   the coefficients of the draws in place of a seed, each below
                   18446744073709551557, at most as many as the depth
  --depth N        how many ranks a pedigree may have, from 1 to 512
                   (default 256)
  --budget N       how many steps each instance may make, from 1 to 4294967295
                   (default 1000000)
  --rounds N       how often a draw is mixed, from 0 to 8 (default 4)
  --workers N      how many are simulated, from 1 to 64 (default 4)
  --show WHAT      plain, or log to see draws and objects too (default plain)

Exit status: 0; 1 where the last line is a fault's; 2 faulty words; 3 no valid
script; 4 a failed read; 5 a failed write; 6 out of memory.

Example:
  $ pedrun sim --number 1 --workers 3 < examples/pi.ped
";

/// `pedrun check --help`.
pub const CHECK: &str = "\
Prints ok where the script on standard input is valid. Else it reports on
standard error the first thing that is wrong with it, and at which byte, counted
from 0.

Usage: pedrun check < SCRIPT

Exit status: 0; 2 faulty words; 3 no valid script; 4 a failed read; 5 a failed
write; 6 out of memory.

Example:
  $ pedrun check < examples/pi.ped
";

/// `pedrun fmt --help`.
pub const FMT: &str = "\
Prints the script on standard input in canonical text: one statement on a line,
two spaces deeper in each block, no comments. The script needn't be valid.

Usage: pedrun fmt < SCRIPT

Exit status: 0; 2 faulty words; 3 no script of the grammar; 4 a failed read; 5 a
failed write; 6 out of memory.

Example:
  $ pedrun fmt < examples/pi.ped
";

/// `pedrun replay --help`.
pub const REPLAY: &str = "\
Prints what one strand of the script on standard input did, found by its
pedigree: its prints, draws and objects, the spawn, sync or loop that ended it,
and its own fault. Give it the options with which the script was run.

Usage: pedrun replay --at PEDIGREE [--OPTION VALUE]... < SCRIPT

Options, in any order, each at most once; a gamma excludes a seed:
  --at PEDIGREE    the strand's name, such as 0.3.1: from 1 to 512 ranks, each
                   from 0 to 4294967295; a rank counts the draws, new
                   objects, spawns, syncs, loops and scopes of an instance
                   (must be given)
  --seed N         the seed of the draws, from 0 to 18446744073709551615
                   (default 0)
  --gamma N,N,..   the coefficients of the draws in place of a seed, each below
                   18446744073709551557, at most as many as the depth
  --depth N        how many ranks a pedigree may have, from 1 to 512
                   (default 256)
  --budget N       how many steps each instance may make, from 1 to 4294967295
                   (default 1000000)
  --rounds N       how often a draw is mixed, from 0 to 8 (default 4)

Exit status: 0; 1 where the last line is the strand's own fault; 2 faulty words;
3 no valid script; 4 a failed read; 5 a failed write; 6 out of memory; 7 where
no strand has this pedigree, or a fault stands on the way to it.

Example:
  $ pedrun replay --seed 1 --at 0.163.2 < examples/midpoint.ped
";

/// `pedrun hash --help`.
pub const HASH: &str = "\
Prints the dot product of a pedigree, and the number that a draw at it gives. It
reads no script.

Usage: pedrun hash --at PEDIGREE [--OPTION VALUE]...

Options, in any order, each at most once; a gamma excludes a seed:
  --at PEDIGREE    the strand's name, such as 0.3.1: from 1 to 512 ranks, each
                   from 0 to 4294967295; a rank counts the draws, new
                   objects, spawns, syncs, loops and scopes of an instance
                   (must be given)
  --seed N         the seed of the draws, from 0 to 18446744073709551615
                   (default 0)
  --gamma N,N,..   the coefficients of the draws in place of a seed, each below
                   18446744073709551557, at most 512
  --rounds N       how often a draw is mixed, from 0 to 8 (default 4)

Exit status: 0; 2 faulty words; 5 a failed write; 6 out of memory.

Example:
  $ pedrun hash --seed 7 --at 0.3.1
";

/// `pedrun gen --help`.
pub const GEN: &str = "\
Prints a script of a shape and a size, to try the other commands on: fib has a
spawn for each call, tree draws at its leaves, loop has a parallel loop. It
reads no script.

Usage: pedrun gen --shape SHAPE --size N

Options, in any order, each once:
  --shape SHAPE    fib, tree or loop (must be given)
  --size N         at most 30 for fib, at most 20 for tree, from 1 to 4096 for
                   loop (must be given)

Exit status: 0; 2 faulty words; 5 a failed write; 6 out of memory.

Example:
  $ pedrun gen --shape fib --size 20 | pedrun run
";

/// `pedrun stream --help`.
pub const STREAM: &str = "\
Prints the draws of consecutive ranks from a pedigree on, a number on a line:
what the strands draw whose names differ from the pedigree's in the last rank
alone. It reads no script.

Usage: pedrun stream --at PEDIGREE --count N [--OPTION VALUE]...

Options, in any order, each at most once; a gamma excludes a seed:
  --at PEDIGREE    the first strand's name, such as 0.3.1: from 1 to 512 ranks,
                   each from 0 to 4294967295; a rank counts the draws, new
                   objects, spawns, syncs, loops and scopes of an instance
                   (must be given)
  --count N        how many draws, from 1 to 1048576; the last one's rank is at
                   most 4294967295 (must be given)
  --seed N         the seed of the draws, from 0 to 18446744073709551615
                   (default 0)
  --gamma N,N,..   the coefficients of the draws in place of a seed, each below
                   18446744073709551557, at most 512
  --rounds N       how often a draw is mixed, from 0 to 8 (default 4)
  --below N        what each draw is reduced by, from 1 to 18446744073709551615
                   (default: it is printed whole)

Exit status: 0; 2 faulty words; 5 a failed write; 6 out of memory.

Example:
  $ pedrun stream --seed 7 --at 0.0 --count 10 --below 6
";

/// `pedrun span --help`.
pub const SPAN: &str = "\
Runs the script on standard input without workers. It prints its work, which is
how many events there are, and its span, which is how many of them the longest
chain has: events of which each is in series before the next. A line of the
fault follows, if there is one. An event is a print, a draw, a new object, a
spawn, a sync or a parallel loop. Events are counted, and no time.

Usage: pedrun span [--OPTION VALUE]... < SCRIPT

Options, in any order, each at most once; a gamma excludes a seed:
  --seed N         the seed of the draws, from 0 to 18446744073709551615
                   (default 0)
  --gamma N,N,..   the coefficients of the draws in place of a seed, each below
                   18446744073709551557, at most as many as the depth
  --depth N        how many ranks a pedigree may have, from 1 to 512
                   (default 256)
  --budget N       how many steps each instance may make, from 1 to 4294967295
                   (default 1000000)
  --rounds N       how often a draw is mixed, from 0 to 8 (default 4)

Exit status: 0; 1 where the last line is a fault's; 2 faulty words; 3 no valid
script; 4 a failed read; 5 a failed write; 6 out of memory.

Example:
  $ pedrun span --seed 7 < examples/pi.ped
";

/// `pedrun batch --help`.
pub const BATCH: &str = "\
Runs the script on standard input under each seed of a list, all on the same
workers. For each seed, in the list's order, it prints a line with the seed and
then what pedrun run prints under this seed alone. A fault ends its own run, and
no other. A seed may stand twice.

Usage: pedrun batch --seeds N,N,.. [--OPTION VALUE]... < SCRIPT

Options, in any order, each at most once:
  --seeds N,N,..   the seeds, from 1 to 256 of them, each from 0 to
                   18446744073709551615 (must be given)
  --depth N        how many ranks a pedigree may have, from 1 to 512
                   (default 256)
  --budget N       how many steps each instance may make, from 1 to 4294967295
                   (default 1000000)
  --rounds N       how often a draw is mixed, from 0 to 8 (default 4)
  --workers N      how many threads, from 1 to 64 (default 4)
  --show WHAT      plain, or log to see draws and objects too (default plain)

Exit status: 0; 1 where at least one run ended by a fault; 2 faulty words; 3 no
valid script; 4 a failed read; 5 a failed write; 6 out of memory.

Example:
  $ pedrun batch --seeds 1,2,3,4,5,6 < examples/midpoint.ped
";
