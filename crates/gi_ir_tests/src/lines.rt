//! Lines whose tokens are known for what they are.

ghost use Rattle.std.specs.Prelude.{◌<◌};

use gi_ir_read::line::read_line;
use gi_ir_read::stop::Stop;
use gi_ir_spelling::place::Fault;
use gi_ir_spelling::token::{Item, Mark, Named, Operation, What, Word};
use gi_text::Number;

const VALUE: What = What::Local(Named {
    ty: None,
    value: Some(0),
    block: None,
});

const UNDEFINED: What = What::Local(Named {
    ty: None,
    value: None,
    block: None,
});

const ONE: What = What::Number(
    Number {
        negative: false,
        size: 1,
    },
    true,
);

// A token of one byte at a place.
fn item(what: What, start: usize) -> Item
    requires { start < 100 }
{
    Item {
        what,
        start,
        end: start + 1,
    }
}

#[test]
fn reads_a_sum(rt: HostRuntime) {
    // `%y = add i32 %x, 1, !dbg`
    let items = [
        item(VALUE, 0),
        item(What::Mark(Mark::Equals), 1),
        item(What::Word(Word::Operation(Operation::Add)), 2),
        item(What::Word(Word::Integer(32)), 3),
        item(VALUE, 4),
        item(What::Mark(Mark::Comma), 5),
        item(ONE, 6),
        item(What::Mark(Mark::Comma), 7),
        item(What::Metadata, 8),
    ];
    match read_line(rt.alloc(), &items) {
        Ok(placed) => assert_eq!(rt; placed.len(), 7),
        Err(_) => panic!(rt; "a sum isn't read"),
    }
}

#[test]
fn tells_what_is_wrong(rt: HostRuntime) {
    // `ret i32 %none`, and `ret i32`
    let items = [
        item(What::Word(Word::Operation(Operation::Return)), 0),
        item(What::Word(Word::Integer(32)), 1),
        item(UNDEFINED, 2),
    ];
    for (count, wanted) in [(3usize, Fault::Unknown(2, 3)), (2, Fault::Syntax)] {
        assert!(rt; count <= 3);
        match read_line(rt.alloc(), &items[..count]) {
            Err(Stop::Fault(fault)) => assert_eq!(rt; fault, wanted),
            _ => panic!(rt; "a wrong line is read"),
        }
    }
}
