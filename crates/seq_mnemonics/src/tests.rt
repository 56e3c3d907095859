//! Names, registers and ranges, worked by hand.
use super::*;
use seq_isa::Instr;
use std::test::Fail;

// Each name with an instruction of it, whose operands are apart.
const NAMED: [(&[u8], Instr); 48] = [
    (b"lui", Instr::Lui { rd: 1, imm: 2 }),
    (b"auipc", Instr::Auipc { rd: 1, imm: 2 }),
    (b"jal", Instr::Jal { rd: 1, offset: 2 }),
    (
        b"jalr",
        Instr::Jalr {
            rd: 1,
            rs1: 2,
            imm: 3,
        },
    ),
    (
        b"beq",
        Instr::Beq {
            rs1: 1,
            rs2: 2,
            offset: 4,
        },
    ),
    (
        b"bne",
        Instr::Bne {
            rs1: 1,
            rs2: 2,
            offset: 4,
        },
    ),
    (
        b"blt",
        Instr::Blt {
            rs1: 1,
            rs2: 2,
            offset: 4,
        },
    ),
    (
        b"bge",
        Instr::Bge {
            rs1: 1,
            rs2: 2,
            offset: 4,
        },
    ),
    (
        b"bltu",
        Instr::Bltu {
            rs1: 1,
            rs2: 2,
            offset: 4,
        },
    ),
    (
        b"bgeu",
        Instr::Bgeu {
            rs1: 1,
            rs2: 2,
            offset: 4,
        },
    ),
    (
        b"lb",
        Instr::Lb {
            rd: 1,
            rs1: 2,
            imm: 3,
        },
    ),
    (
        b"lh",
        Instr::Lh {
            rd: 1,
            rs1: 2,
            imm: 3,
        },
    ),
    (
        b"lw",
        Instr::Lw {
            rd: 1,
            rs1: 2,
            imm: 3,
        },
    ),
    (
        b"lbu",
        Instr::Lbu {
            rd: 1,
            rs1: 2,
            imm: 3,
        },
    ),
    (
        b"lhu",
        Instr::Lhu {
            rd: 1,
            rs1: 2,
            imm: 3,
        },
    ),
    (
        b"sb",
        Instr::Sb {
            rs1: 1,
            rs2: 2,
            imm: 3,
        },
    ),
    (
        b"sh",
        Instr::Sh {
            rs1: 1,
            rs2: 2,
            imm: 3,
        },
    ),
    (
        b"sw",
        Instr::Sw {
            rs1: 1,
            rs2: 2,
            imm: 3,
        },
    ),
    (
        b"addi",
        Instr::Addi {
            rd: 1,
            rs1: 2,
            imm: 3,
        },
    ),
    (
        b"slti",
        Instr::Slti {
            rd: 1,
            rs1: 2,
            imm: 3,
        },
    ),
    (
        b"sltiu",
        Instr::Sltiu {
            rd: 1,
            rs1: 2,
            imm: 3,
        },
    ),
    (
        b"xori",
        Instr::Xori {
            rd: 1,
            rs1: 2,
            imm: 3,
        },
    ),
    (
        b"ori",
        Instr::Ori {
            rd: 1,
            rs1: 2,
            imm: 3,
        },
    ),
    (
        b"andi",
        Instr::Andi {
            rd: 1,
            rs1: 2,
            imm: 3,
        },
    ),
    (
        b"slli",
        Instr::Slli {
            rd: 1,
            rs1: 2,
            amount: 3,
        },
    ),
    (
        b"srli",
        Instr::Srli {
            rd: 1,
            rs1: 2,
            amount: 3,
        },
    ),
    (
        b"srai",
        Instr::Srai {
            rd: 1,
            rs1: 2,
            amount: 3,
        },
    ),
    (
        b"add",
        Instr::Add {
            rd: 1,
            rs1: 2,
            rs2: 3,
        },
    ),
    (
        b"sub",
        Instr::Sub {
            rd: 1,
            rs1: 2,
            rs2: 3,
        },
    ),
    (
        b"sll",
        Instr::Sll {
            rd: 1,
            rs1: 2,
            rs2: 3,
        },
    ),
    (
        b"slt",
        Instr::Slt {
            rd: 1,
            rs1: 2,
            rs2: 3,
        },
    ),
    (
        b"sltu",
        Instr::Sltu {
            rd: 1,
            rs1: 2,
            rs2: 3,
        },
    ),
    (
        b"xor",
        Instr::Xor {
            rd: 1,
            rs1: 2,
            rs2: 3,
        },
    ),
    (
        b"srl",
        Instr::Srl {
            rd: 1,
            rs1: 2,
            rs2: 3,
        },
    ),
    (
        b"sra",
        Instr::Sra {
            rd: 1,
            rs1: 2,
            rs2: 3,
        },
    ),
    (
        b"or",
        Instr::Or {
            rd: 1,
            rs1: 2,
            rs2: 3,
        },
    ),
    (
        b"and",
        Instr::And {
            rd: 1,
            rs1: 2,
            rs2: 3,
        },
    ),
    (
        b"mul",
        Instr::Mul {
            rd: 1,
            rs1: 2,
            rs2: 3,
        },
    ),
    (
        b"mulh",
        Instr::Mulh {
            rd: 1,
            rs1: 2,
            rs2: 3,
        },
    ),
    (
        b"mulhsu",
        Instr::Mulhsu {
            rd: 1,
            rs1: 2,
            rs2: 3,
        },
    ),
    (
        b"mulhu",
        Instr::Mulhu {
            rd: 1,
            rs1: 2,
            rs2: 3,
        },
    ),
    (
        b"div",
        Instr::Div {
            rd: 1,
            rs1: 2,
            rs2: 3,
        },
    ),
    (
        b"divu",
        Instr::Divu {
            rd: 1,
            rs1: 2,
            rs2: 3,
        },
    ),
    (
        b"rem",
        Instr::Rem {
            rd: 1,
            rs1: 2,
            rs2: 3,
        },
    ),
    (
        b"remu",
        Instr::Remu {
            rd: 1,
            rs1: 2,
            rs2: 3,
        },
    ),
    (b"fence", Instr::Fence { word: 0x0ff0_000f }),
    (b"ecall", Instr::Ecall),
    (b"ebreak", Instr::Ebreak),
];

#[test]
fn each_name_leads_to_its_instruction(rt: HostRuntime) -> Result<(), Fail> {
    for (name, instr) in NAMED {
        let statement = Statement::of(instr).ok_or("no statement")?;
        assert_eq!(rt; statement.mnemonic().text(), name);
        assert_eq!(rt; Mnemonic::named(name), Some(statement.mnemonic()));
        assert_eq!(rt; statement.instruction(), instr);
    }
    Ok(())
}

#[test]
fn other_words_are_no_names(rt: HostRuntime) {
    for word in [
        b"".as_slice(),
        b"ad",
        b"addd",
        b"ADD",
        b"nop",
        b"jal ",
        b".word",
        b"fence.i",
    ] {
        assert_eq!(rt; Mnemonic::named(word), None);
    }
    for word in [0x0000_000f, 0x0330_000f, 0x8330_000f, 0x0ff0_008f] {
        assert_eq!(rt; Statement::of(Instr::Fence { word }), None);
    }
}

#[test]
fn registers_have_their_names(rt: HostRuntime) {
    for (name, number) in [
        (b"x0".as_slice(), Some(0)),
        (b"zero", Some(0)),
        (b"ra", Some(1)),
        (b"sp", Some(2)),
        (b"gp", Some(3)),
        (b"tp", Some(4)),
        (b"t0", Some(5)),
        (b"t2", Some(7)),
        (b"x8", Some(8)),
        (b"s0", Some(8)),
        (b"fp", Some(8)),
        (b"s1", Some(9)),
        (b"a0", Some(10)),
        (b"a7", Some(17)),
        (b"s2", Some(18)),
        (b"s11", Some(27)),
        (b"t3", Some(28)),
        (b"t6", Some(31)),
        (b"x31", Some(31)),
        (b"x32", None),
        (b"x01", None),
        (b"x", None),
        (b"", None),
        (b"X1", None),
        (b"a8", None),
        (b"s12", None),
        (b"t7", None),
        (b"fp ", None),
    ] {
        assert_eq!(rt; register(name), number);
    }
    assert_eq!(rt; register_name(0), b"x0".as_slice());
    assert_eq!(rt; register_name(31), b"x31".as_slice());
}

#[test]
fn ranges_end_where_they_end(rt: HostRuntime) {
    assert_eq!(rt;
        (
            immediate(-2049),
            immediate(-2048),
            immediate(2047),
            immediate(2048)
        ),
        (None, Some(-2048), Some(2047), None)
    );
    assert_eq!(rt;
        (
            branch_offset(-4098),
            branch_offset(-4096),
            branch_offset(4094),
            branch_offset(4096)
        ),
        (None, Some(-4096), Some(4094), None)
    );
    assert_eq!(rt;
        (branch_offset(-1), branch_offset(1), branch_offset(0)),
        (None, None, Some(0))
    );
    assert_eq!(rt;
        (
            jump_offset(-1_048_578),
            jump_offset(-1_048_576),
            jump_offset(1_048_574),
            jump_offset(1_048_576)
        ),
        (None, Some(-1_048_576), Some(1_048_574), None)
    );
    assert_eq!(rt; (jump_offset(3), jump_offset(-3)), (None, None));
    assert_eq!(rt;
        (upper(-1), upper(0), upper(1_048_575), upper(1_048_576)),
        (None, Some(0), Some(1_048_575), None)
    );
    assert_eq!(rt;
        (amount(-1), amount(0), amount(31), amount(32)),
        (None, Some(0), Some(31), None)
    );
    assert_eq!(rt;
        (amount(i64::MIN), immediate(i64::MAX), upper(1 << 32)),
        (None, None, None)
    );
}
