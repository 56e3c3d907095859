use super::*;
use seq_mnemonics::Statement;

#[test]
fn a_line_is_cut_into_its_parts(rt: HostRuntime) {
    let line = cut_line(b"\t add:  lw\t x5, 0(x9) \t# load: it");
    assert_eq!(rt; line.label, Some(b"add".as_slice()));
    assert_eq!(rt; line.word, b"lw".as_slice());
    assert_eq!(rt; line.operands, b"x5, 0(x9)".as_slice());
    assert_eq!(rt; last_operand(line.operands), b"0(x9)".as_slice());
    let bare = cut_line(b"9a: ecall");
    assert_eq!(rt; bare.label, None);
    assert_eq!(rt; bare.word, b"9a:".as_slice());
    assert_eq!(rt; cut_line(b"# a: b").word, b"".as_slice());
}

#[test]
fn words_say_items(rt: HostRuntime) {
    assert!(rt; matches!(read_words(b"", b""), Said::Nothing));
    assert!(rt; matches!(read_words(b"nop", b""), Said::UnknownWord));
    assert!(rt; matches!(read_words(b"ecall", b"x1"), Said::BadOperands));
    assert!(rt; matches!(read_words(b"lui", b"x1, -1"), Said::OutOfRange));
    assert!(rt;
        matches!(
            read_words(b".word", b"-2"),
            Said::Says(Item::Word(0xffff_fffe))
        )
    );
    assert!(rt;
        matches!(
            read_words(b"jal", b"ra, far"),
            Said::Says(Item::Jump { rd: 1 })
        )
    );
    assert!(rt;
        matches!(
            read_words(b"jal", b"x0, -4"),
            Said::Says(Item::Instruction(Statement::Jump { rd: 0, offset: -4 }))
        )
    );
    assert_eq!(rt; branch_offset_of(4094), Some(4094));
    assert_eq!(rt; jump_offset_of(3), None);
}
