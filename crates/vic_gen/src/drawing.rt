//! A generator of a drill's clients and of what they do.

ghost use Rattle.std.specs.Prelude.{◌≡◌, ◌<◌, ◌≤◌, ◌+◌, ◌/◌, ◌%◌, ◌∷◌, length, IfOk, OnOk, OnErr};
ghost use Rattle.std.specs.Fmt.{decimal};
ghost use Rattle.vic_dict.specs.declared.limits.TheConstants.{LONGEST_VALUE, MOST_CLIENTS};
ghost use Rattle.vic_dict.specs.Dictionary.{Fits};
ghost use Rattle.vic_gen.specs.Drawing.{drawing_from, next_of, number_drawn, next_drawing, client_drawn, key_drawn, prefix_drawn, op_drawn, act_of, drawing_after_act, FitsAct};

use crate::Act;
use std::alloc::Global;
use std::marker::Model;
use vic_dict::{Bytes, NoMemory, Op};

/// Which of a client's acts is a poll, counted from 0 modulo 4.
const POLL: u8 = 3;

/// A generator: the number that is drawn from, and how often each client has acted, modulo 4. Equal numbers give equal runs.
#[derive(Debug, Drop)]
pub struct Gen {
    /// The number that the next draw starts from.
    x: u32,
    /// How often clients 1, 2 and so on have acted, modulo 4.
    acts: Vec<u8>,
}

impl Model for Gen {
    ghost use Rattle.std.specs.Prelude.{◌<◌, ◌≤◌, vec_len};
    ghost use Rattle.vic_gen.specs.Drawing.{Drawing};
    ghost use Rattle.vic_dict.specs.declared.limits.TheConstants.{MOST_CLIENTS};

    ghost Value = { Drawing };

    ghost view = { λ a. record { x = a.x; acts = a.acts.items } };

    ghost invariant = { λ a. (0 < vec_len a.acts) × (vec_len a.acts ≤ MOST_CLIENTS) };
}

/// The number behind a number.
fn next(x: u32) -> u32
    ensures { result ≡ next_of x }
{
    ((u64::from(x) * 1_664_525 + 1_013_904_223) % 4_294_967_296) as u32
}

/// What is drawn of a number, below a bound.
fn draw(x: u32, below: u32) -> u32
    requires { 0 < below }
    ensures drawn { result ≡ number_drawn x below }
    ensures below { result < below }
{
    (next(x) / 65_536) % below
}

/// A decimal digit of a number below 200, by the power of ten at which it stands.
fn digit(number: u32, power: u32) -> u8
    requires { 0 < power }
    ensures { result ≡ 48 + number / power % 10 }
{
    (48 + number / power % 10) as u8
}

/// The key that is drawn of a number: four bytes.
fn key(alloc: Global, x: u32) -> Result<Bytes, NoMemory>
    ensures { IfOk result (λ made. made ≡ key_drawn x) }
{
    let number = draw(x, 200);
    Bytes::of(
        alloc,
        &[
            b'k',
            digit(number, 100),
            digit(number, 10),
            digit(number, 1),
        ],
    )
}

/// The prefix that is drawn of a number: three bytes.
fn prefix(alloc: Global, x: u32) -> Result<Bytes, NoMemory>
    ensures { IfOk result (λ made. made ≡ prefix_drawn x) }
{
    let number = draw(x, 20);
    Bytes::of(alloc, &[b'k', digit(number, 10), digit(number, 1)])
}

/// The value that a call of this number puts.
fn value(alloc: Global, call: u32) -> Result<Bytes, NoMemory>
    ensures value { IfOk result (λ made. made ≡ 118 ∷ decimal call) }
    ensures short { IfOk result (λ made. length made ≤ LONGEST_VALUE) }
{
    let text = call.to_string(alloc)?;
    let mut made = Bytes::of(alloc, b"v")?;
    made.append(text.as_bytes())?;
    Ok(made)
}

/// The operation of a call, by what was drawn for its kind; its key or prefix is drawn of `x`.
fn operation(alloc: Global, kind: u32, x: u32, call: u32) -> Result<Op, NoMemory>
    ensures operation { IfOk result (λ made. made ≡ op_drawn kind x call) }
    ensures fits { IfOk result Fits }
{
    Ok(match kind {
        0..=3 => Op::Put(key(alloc, x)?, value(alloc, call)?),
        4 | 5 => Op::Get(key(alloc, x)?),
        6 => Op::Del(key(alloc, x)?),
        _ => Op::List(prefix(alloc, x)?),
    })
}

impl Gen {
    /// A generator from a number, for so many clients.
    pub fn new(alloc: Global, number: u32, clients: u8) -> Result<Gen, NoMemory>
        requires some { 0 < clients }
        requires few { clients ≤ MOST_CLIENTS }
        ensures { IfOk result (λ made. made ≡ drawing_from number clients) }
    {
        Ok(Gen {
            x: number,
            acts: vec![in alloc; 0u8; usize::from(clients)]?,
        })
    }

    /// The client whose turn is next, from 1 on.
    pub fn pick(&mut self) -> u8
        ensures picked { result ≡ client_drawn self.old }
        ensures moved { self.new ≡ next_drawing self.old }
        ensures some { 0 < result }
        ensures known { result ≤ length self.old.acts }
        ensures few { length self.old.acts ≤ MOST_CLIENTS }
    {
        let clients = self.acts.len() as u32;
        let place = draw(self.x, clients);
        self.x = next(self.x);
        1 + place as u8
    }

    /// What a client does next, at the call of this number; after want of memory it is still to be drawn.
    pub fn act(&mut self, alloc: Global, client: u8, call: u32) -> Result<Act, NoMemory>
        requires some { 0 < client }
        requires known { client ≤ length self.old.acts }
        ensures act { IfOk result (λ made. made ≡ act_of self.old client call) }
        ensures fits { IfOk result FitsAct }
        ensures ok { OnOk result (self.new ≡ drawing_after_act self.old client) }
        ensures err { OnErr result (self.new ≡ self.old) }
    {
        let place = usize::from(client) - 1;
        let times = self.acts[place];
        if times == POLL {
            self.acts[place] = 0;
            return Ok(Act::Poll);
        }
        let behind = next(self.x);
        let op = operation(alloc, draw(self.x, 8), behind, call)?;
        self.x = next(behind);
        self.acts[place] = ((u32::from(times) + 1) % 4) as u8;
        Ok(Act::Call(op))
    }
}
