//! The table of kernel calls, and programs that run to their end.
ghost use Rattle.seq_words.specs.Description.{IsSize};

use seq_flat::{
    End, Flat, Inputs, LineInput, StepError, Waits, more_input_changes_no_run,
    more_input_changes_no_step, run_keeps_output, runs_go_on, step_keeps_output,
};
use seq_isa::{Instr, encode};
use seq_samples::two_images;
use seq_words::{Bytes, Items, LineNo, Pid, Seg};
use std::alloc::Global;
use std::process::Abort;
use std::test::Fail;

/// A kernel call: the process, x17, x10, x11 and x12, and the answer.
type Call = (u8, i32, i32, i32, i32, i32);

/// Calls in the order in which they are made. Process 0 owns line 0, and both are granted segments 0, 1 and 2 of four. Line
/// 0 has the byte 0x80, and is closed.
const CALLS: [Call; 40] = [
    (0, 1, 9, 0, 0, -3),
    (0, 1, 3, 0, 0, -4),
    (0, 1, 1, 0, 0, 0),
    (0, 1, 1, 0, 0, -1),
    (0, 1, 0, 0, 0, -2),
    (0, 2, 2, 0, 0, -1),
    (0, 1, 4, 0, 0, -3),
    (0, 1, -1, 0, 0, -3),
    (0, 2, 9, 0, 0, -1),
    (0, 2, -1, 0, 0, -1),
    (1, 1, 0, 0, 0, 0),
    (1, 2, 1, 0, 0, -1),
    (0, 2, 0, 0, 0, -1),
    (0, 2, 1, 0, 0, 0),
    (0, 2, 1, 0, 0, -1),
    (0, 1, 2, 0, 0, 0),
    (0, 1, 0, 0, 0, -2),
    (0, 1, 1, 0, 0, -2),
    (0, 2, 2, 0, 0, 0),
    (0, 3, 1, 0, 0, -6),
    (0, 3, 16, 0, 0, -6),
    (0, 3, 32, 0, 0, -6),
    (1, 3, 0, 0, 0, -6),
    (0, 3, 0, 0, 0, 0x80),
    (0, 3, 0, 0, 0, -1),
    (0, 3, 0, 0, 0, -1),
    (0, 4, 1, -1, 65, -6),
    (0, 4, 0, -1, 65, -7),
    (0, 4, 0, 0, 65, -7),
    (0, 4, 0, 1023, 2, -8),
    (0, 4, 0, -1, 1, -8),
    (0, 4, 0, -1, 0, 0),
    (0, 4, 0, 1022, 2, 2),
    (0, 4, 0, 0, 64, 64),
    (0, 5, 9, 0, 0, 0),
    (1, 5, 9, 0, 0, 1),
    (0, 6, 9, 0, 0, 0),
    (0, 7, 9, 0, 0, 0),
    (0, 8, 9, 0, 0, -9),
    (0, -1, 9, 0, 0, -9),
];

/// A register gets a small number.
fn set(rd: u8, imm: i32) -> Instr {
    Instr::Addi { rd, rs1: 0, imm }
}

/// Adds the words of instructions.
fn assemble(image: &mut Bytes, instrs: &[Instr]) -> Result<(), Fail> {
    for instr in instrs {
        let word = encode(instr).ok_or("an instruction is out of range")?;
        image.append(&word.to_le_bytes())?;
    }
    Ok(())
}

/// Adds a call.
fn assemble_call(image: &mut Bytes, number: i32, x10: i32, x11: i32, x12: i32) -> Result<(), Fail> {
    let instrs = [
        set(17, number),
        set(10, x10),
        set(11, x11),
        set(12, x12),
        Instr::Ecall,
    ];
    assemble(image, &instrs)
}

/// The flat machine of these two images.
fn flat_of(
    rt: &impl Abort,
    alloc: Global,
    size: u32,
    image: Bytes,
    other: Bytes,
) -> Result<Flat, Fail>
    requires { IsSize 65536 size }
{
    assert!(rt; image.as_slice().len() <= size as usize);
    assert!(rt; other.as_slice().len() <= size as usize);
    let desc = two_images(alloc, size, image, size, other)?;
    Ok(Flat::new(alloc, &desc)?)
}

/// The input of line 0.
fn inputs_of(alloc: Global, bytes: &[u8], closed: bool) -> Result<Inputs, Fail> {
    let mut lines = Items::new(alloc);
    lines.push(LineInput {
        bytes: Bytes::copy_of(alloc, bytes)?,
        closed,
    })?;
    Ok(Inputs { lines })
}

/// Steps of a process until it waits, but at most so many. The answer is their number.
fn steps(flat: &mut Flat, pid: u8, inputs: &Inputs, most: u32) -> u32 {
    for made in 0..most {
        if flat.step(Pid(pid), inputs).is_err() {
            return made;
        }
    }
    most
}

/// What a process waits for, if it does.
fn waits(flat: &mut Flat, pid: u8, inputs: &Inputs) -> Option<Waits> {
    match flat.step(Pid(pid), inputs) {
        Err(StepError::Waits(waits)) => Some(waits),
        _ => None,
    }
}

/// What a process holds in x10.
fn answer(flat: &Flat, pid: u8) -> Option<u32> {
    match flat.state.processes.as_slice().get(pid as usize) {
        Some(process) => Some(process.regs.x[10]),
        None => None,
    }
}

/// The calls of one process, as a program.
fn calls_of(alloc: Global, pid: u8) -> Result<Bytes, Fail> {
    let mut image = Bytes::new(alloc);
    for call in CALLS {
        if call.0 == pid {
            assemble_call(&mut image, call.1, call.2, call.3, call.4)?;
        }
    }
    Ok(image)
}

#[test]
fn kernel_calls(rt: HostRuntime) -> Result<(), Fail> {
    let alloc = rt.alloc();
    let mut flat = flat_of(&rt, alloc, 1024, calls_of(alloc, 0)?, calls_of(alloc, 1)?)?;
    let inputs = inputs_of(alloc, &[0x80], true)?;
    for call in CALLS {
        let made = steps(&mut flat, call.0, &inputs, 5);
        let wanted = Some(call.5.cast_unsigned());
        assert_eq!(rt; (made, answer(&flat, call.0)), (5, wanted), "{call:?}");
    }
    assert_eq!(rt; flat.output(LineNo(0)).len(), 66);
    Ok(())
}

/// Writes of each length from 0 on, below this one.
const LENGTHS: u32 = 66;

/// The next write, of so many bytes, is answered with its length, and put out whole, up to 64 bytes.
fn check_write(rt: &impl Abort, flat: &mut Flat, inputs: &Inputs, length: u32) {
    let before = flat.output(LineNo(0)).len();
    let made = steps(flat, 0, inputs, 5);
    let (wanted, taken) = if length <= 64 {
        (length, length as usize)
    } else {
        (u32::MAX - 6, 0)
    };
    assert_eq!(rt; (made, answer(flat, 0)), (5, Some(wanted)), "{length}");
    let after = flat.output(LineNo(0)).len();
    assert_eq!(rt; after.checked_sub(before), Some(taken), "{length}");
}

#[test]
fn writes_of_each_length(rt: HostRuntime) -> Result<(), Fail> {
    let alloc = rt.alloc();
    let mut image = Bytes::new(alloc);
    for length in 0..LENGTHS {
        assemble_call(&mut image, 4, 0, 0, length.cast_signed())?;
    }
    let mut flat = flat_of(&rt, alloc, 2048, image, Bytes::new(alloc))?;
    let inputs = inputs_of(alloc, b"", false)?;
    for length in 0..LENGTHS {
        check_write(&rt, &mut flat, &inputs, length);
    }
    Ok(())
}

#[test]
fn a_segment_is_awaited(rt: HostRuntime) -> Result<(), Fail> {
    let alloc = rt.alloc();
    let mut image = Bytes::new(alloc);
    let mut other = Bytes::new(alloc);
    assemble_call(&mut image, 1, 0, 0, 0)?;
    assemble_call(&mut other, 1, 0, 0, 0)?;
    assemble_call(&mut other, 0, -7, 0, 0)?;
    let mut flat = flat_of(&rt, alloc, 512, image, other)?;
    let inputs = inputs_of(alloc, b"", false)?;
    assert_eq!(rt; steps(&mut flat, 1, &inputs, 9), 9);
    assert_eq!(rt; steps(&mut flat, 0, &inputs, 9), 4);
    assert_eq!(rt;
        waits(&mut flat, 0, &inputs),
        Some(Waits::Lock(Seg(0), Pid(1)))
    );
    assert_eq!(rt; steps(&mut flat, 1, &inputs, 9), 1);
    for pid in [1, 2, 255] {
        assert_eq!(rt; waits(&mut flat, pid, &inputs), Some(Waits::Ended));
    }
    assert_eq!(rt; answer(&flat, 1), Some(0xffff_fff9));
    assert_eq!(rt;
        (steps(&mut flat, 0, &inputs, 1), answer(&flat, 0)),
        (1, Some(0))
    );
    Ok(())
}

/// Stores x5 at every thirty-second byte from 1024 up to 1568, and exits.
fn spread() -> [Instr; 8] {
    [
        set(5, 1024),
        set(6, 1568),
        Instr::Sw {
            rs1: 5,
            rs2: 5,
            imm: 0,
        },
        Instr::Addi {
            rd: 5,
            rs1: 5,
            imm: 32,
        },
        Instr::Bne {
            rs1: 5,
            rs2: 6,
            offset: -8,
        },
        set(10, 0),
        set(17, 0),
        Instr::Ecall,
    ]
}

/// Writes each byte that it reads, and exits at the end of the input.
fn echo() -> [Instr; 14] {
    [
        set(10, 0),
        set(17, 3),
        Instr::Ecall,
        Instr::Blt {
            rs1: 10,
            rs2: 0,
            offset: 32,
        },
        Instr::Sb {
            rs1: 0,
            rs2: 10,
            imm: 256,
        },
        set(10, 0),
        set(11, 256),
        set(12, 1),
        set(17, 4),
        Instr::Ecall,
        Instr::Jal { rd: 0, offset: -40 },
        set(10, 0),
        set(17, 0),
        Instr::Ecall,
    ]
}

/// Writes 64 bytes until a write is refused, and exits with that answer.
fn fill() -> [Instr; 8] {
    [
        set(11, 0),
        set(12, 64),
        set(17, 4),
        set(10, 0),
        Instr::Ecall,
        Instr::Bge {
            rs1: 10,
            rs2: 0,
            offset: -8,
        },
        set(17, 0),
        Instr::Ecall,
    ]
}

/// A program, the input of line 0 and whether it is closed, and what comes of it: the steps, the number of bytes put out, the
/// end, and for what the process then waits.
type Program<'a> = (&'a [Instr], &'a [u8], bool, u32, usize, End, Waits);

/// Runs a program, and compares.
fn run(rt: &impl Abort, alloc: Global, program: Program) -> Result<(), Fail> {
    let mut image = Bytes::new(alloc);
    assemble(&mut image, program.0)?;
    let mut flat = flat_of(rt, alloc, 4096, image, Bytes::new(alloc))?;
    let inputs = inputs_of(alloc, program.1, program.2)?;
    assert_eq!(rt; steps(&mut flat, 0, &inputs, 100_000), program.3);
    assert_eq!(rt; flat.output(LineNo(0)).len(), program.4);
    assert!(rt; flat.state.processes.len() == 2);
    assert_eq!(rt; flat.end(Pid(0)), program.5);
    assert_eq!(rt; waits(&mut flat, 0, &inputs), Some(program.6));
    Ok(())
}

#[test]
fn programs(rt: HostRuntime) -> Result<(), Fail> {
    let ended = End::Exited(0);
    let awaits_byte = Waits::Input(LineNo(0));
    for program in [
        (
            spread().as_slice(),
            b"".as_slice(),
            false,
            2 + 17 * 3 + 3,
            0,
            ended,
            Waits::Ended,
        ),
        (
            echo().as_slice(),
            b"AB".as_slice(),
            true,
            2 * 11 + 7,
            2,
            ended,
            Waits::Ended,
        ),
        (
            echo().as_slice(),
            b"AB".as_slice(),
            false,
            2 * 11 + 2,
            2,
            End::Live,
            awaits_byte,
        ),
        (
            fill().as_slice(),
            b"".as_slice(),
            false,
            3 + 16384 * 3 + 5,
            1_048_576,
            End::Exited(0xffff_fffb),
            Waits::Ended,
        ),
        (
            [].as_slice(),
            b"".as_slice(),
            false,
            1,
            0,
            End::Trapped(2, 0),
            Waits::Ended,
        ),
    ] {
        run(&rt, rt.alloc(), program)?;
    }
    Ok(())
}
