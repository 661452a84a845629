//! The functions of a program, as instructions.

ghost use Rattle.std.specs.Prelude.{◌≡◌, ◌+◌, ◌*◌, ◌<◌, ◌≤◌, ◌^◌, IfOk};
ghost use Rattle.demo_make.specs.Functions.{await, child, end, function, loop, main, start, upper};

use crate::draws::Choice;
use crate::instructions::{
    A0, A1, A2, A3, A4, A7, RA, S0, S1, SP, T1, T2, X0, addi, branch, jal, lui, lw, offset, signed,
    sw,
};
use crate::layout::{CHILD_ADDR, CODE_ADDR, function_addr};
use byte_text::OutOfMemory;
use prog_make::instruction::{ECALL, RETURN};
use rv_decode::{Instr, Op};
use std::alloc::Global;

/// One of f0 to f31: it raises its counter, and where its argument isn't 0, it calls two functions with one less.
pub fn function(k: u32, choice: &Choice) -> [Instr; 17]
    requires number { k < 32 }
    requires first { choice.now.first < 32 }
    requires second { choice.now.second < 32 }
    requires counter { choice.now.counter < 2048 }
    ensures { result ≡ function k choice.now }
{
    let addr = function_addr(k);
    let counter = signed(choice.counter);
    let first = function_addr(choice.first);
    let second = function_addr(choice.second);
    [
        addi(SP, SP, -16),
        sw(RA, 12, SP),
        sw(S0, 8, SP),
        addi(S0, A0, -1),
        lui(T1, 0x20),
        lw(T2, counter, T1),
        addi(T2, T2, 1),
        sw(T2, counter, T1),
        branch(Op::BLT, S0, X0, 4 * 5),
        addi(A0, S0, 0),
        jal(RA, offset(addr + 4 * 10, first)),
        addi(A0, S0, 0),
        jal(RA, offset(addr + 4 * 12, second)),
        lw(S0, 8, SP),
        lw(RA, 12, SP),
        addi(SP, SP, 16),
        RETURN,
    ]
}

/// Calls f0 with 5 as often as the size says. The first instruction is to stand at `addr`.
fn loop_of(addr: u32, size: u32) -> [Instr; 6]
    requires addr { addr < 2 ^ 20 }
    requires size { size < 2 ^ 20 }
    ensures { result ≡ loop addr size }
{
    let upper = (size + 2048) / 4096;
    [
        lui(S1, upper),
        addi(S1, S1, offset(4096 * upper, size)),
        addi(A0, X0, 5),
        jal(RA, offset(addr + 4 * 3, function_addr(0))),
        addi(S1, S1, -1),
        branch(Op::BNE, S1, X0, -(4 * 3)),
    ]
}

/// Makes a thread, whose number stands in its word until it ends, and which goes on in `child`. The first instruction
/// is to stand at `addr`.
fn start(addr: u32, t: u32) -> [Instr; 10]
    requires addr { addr < 2 ^ 20 }
    requires thread { t < 4 }
    ensures { result ≡ start addr t }
{
    [
        lui(A0, 0x7d1),
        addi(A0, A0, -256),
        lui(A1, 0x24 + 4 * t),
        lui(A2, 0x21),
        addi(A2, A2, signed(4 * t)),
        addi(A3, X0, 0),
        addi(A4, A2, 0),
        addi(A7, X0, 220),
        ECALL,
        branch(Op::BEQ, A0, X0, offset(addr + 4 * 9, CHILD_ADDR)),
    ]
}

/// Waits until the word of a thread is 0.
fn await_end(t: u32) -> [Instr; 9]
    requires { t < 4 }
    ensures { result ≡ await t }
{
    [
        lui(A0, 0x21),
        addi(A0, A0, signed(4 * t)),
        lw(A2, 0, A0),
        branch(Op::BEQ, A2, X0, 4 * 6),
        addi(A1, X0, 0),
        addi(A3, X0, 0),
        addi(A7, X0, 422),
        ECALL,
        jal(X0, -(4 * 8)),
    ]
}

/// A system call that ends with the code 0.
fn end(call: u32) -> [Instr; 3]
    requires { call < 2 ^ 11 }
    ensures { result ≡ end call }
{
    [addi(A7, X0, signed(call)), addi(A0, X0, 0), ECALL]
}

/// Three threads are made, the loop runs, the threads are waited for, and the process ends.
pub fn main_code(alloc: Global, size: u32) -> Result<Vec<Instr>, OutOfMemory>
    requires { size < 2 ^ 20 }
    ensures { IfOk result (λ code. code.items ≡ main size) }
{
    let mut code = Vec::new(alloc);
    code.extend_from_slice(&start(CODE_ADDR, 1))?;
    code.extend_from_slice(&start(CODE_ADDR + 4 * 10, 2))?;
    code.extend_from_slice(&start(CODE_ADDR + 4 * 20, 3))?;
    code.extend_from_slice(&loop_of(CODE_ADDR + 4 * 30, size))?;
    code.extend_from_slice(&await_end(1))?;
    code.extend_from_slice(&await_end(2))?;
    code.extend_from_slice(&await_end(3))?;
    code.extend_from_slice(&end(94))?;
    Ok(code)
}

/// The loop runs, and the thread ends.
pub fn child_code(alloc: Global, size: u32) -> Result<Vec<Instr>, OutOfMemory>
    requires { size < 2 ^ 20 }
    ensures { IfOk result (λ code. code.items ≡ child size) }
{
    let mut code = Vec::new(alloc);
    code.extend_from_slice(&loop_of(CHILD_ADDR, size))?;
    code.extend_from_slice(&end(93))?;
    Ok(code)
}
