//! What the program tells of itself. docs/gisel.1 is made of this text by docs/man.

pub const VERSION: &str = "gisel 0.1\n";

pub const HELP: &str = "\
gisel - LLVM's GlobalISel instruction selector for RISC-V, proved

Usage:
  gisel [options] [FILE]

Description:
  gisel reads Machine IR as text (LLVM's .mir files), runs passes of
  GlobalISel over it and writes the Machine IR that they leave. Every run of
  what it writes is a run that the input allows. Without FILE, or with -, it
  reads standard input.

Options:
  Each begins with one or two dashes, and is given once at most.

  -mtriple=T
      The target: T begins with riscv32 or riscv64. Without it the target
      triple of the file's IR decides, and without both it is riscv64.
  -mattr=+m, -global-isel
      No effect: RISC-V's M extension and GlobalISel are always on.
  -start-after=P
      Run the passes behind P. The input is what P leaves. Without it the
      input is LLVM IR, which isn't read yet.
  -stop-after=P
      Run no pass behind P. Without it instruction-select is the last.
  -o FILE
      Write to FILE; - is standard output.
  --help, -h
      Write this text. It is the only word then.
  --version
      Write the version. It is the only word then.

Passes:
  In their order:

  irtranslator
  riscv-prelegalizer-combiner
  legalizer
  riscv-postlegalizer-combiner
  regbankselect
  instruction-select

  Built so far: a run that starts behind the pass with which it stops (the
  text is checked, and written in its canonical form), and
  instruction-select for riscv32, of functions of one block that copy
  argument registers, make constants of 12 bits, add and return.

Exit status:
  0
      The text was written.
  1
      The input is refused, and a message tells why.
  2
      A word of the command line is at fault.
  3
      There was no memory.
  4
      The input could not be read.
  5
      The output could not be written.

Example:
  gisel -mtriple=riscv32 -start-after=regbankselect examples/add.mir
";
