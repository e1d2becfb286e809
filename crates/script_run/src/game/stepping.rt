// Plays a game line by line, while it reads the script.
ghost use Rattle.std.specs.Prelude.{◌≡◌, ◌+◌, ◌*◌, ◌-◌, ◌^◌, ◌<◌, ◌≤◌, ◌++◌, ◌∷◌, ℕ, [], List, length, take, IsTrue, IfOk, vec_capacity, vec_len};
ghost use Rattle.script_run.specs.{StepsGame, AnswersPiece, EndsScript, HearsBytes, HearsLines, IsStepping, TookMore, stopped_by};
ghost use Rattle.script_run.specs.Prelude.{REPLY_TEXT, TEXT_BYTES, HasCause, ReadsAtMost, GameFile};
ghost use Rattle.tac_io.specs.Written.{WritesPiece};

use crate::fault::{ScriptFault, ScriptReason, StepFault};
use crate::game::held_line::HeldLine;
use crate::game::playing::{FinishedGame, write_played};
use crate::game::run::GameRun;
use game_text::Game;
use std::alloc::Global;
use std::thread::Threads;
use tac_base::Memory;
use tac_base::limits::{REPLY_TEXT, TEXT_BYTES};
use tac_io::{Failed, Files, Sink, write_all};
use text_forms::cut;

/// The most bytes of a script that one read takes.
pub const PIECE_BYTES: usize = 1_024;

/// The most bytes of the replies to a piece of a script.
const ANSWER_BYTES: usize = PIECE_BYTES * REPLY_TEXT;

/// A game that is played line by line: the run, the part of the current line that was read, and the line's number.
#[derive(Drop)]
pub(crate) struct Stepper<'a> {
    run: GameRun<'a>,
    held: HeldLine,
    number: u32,
}

/// Turns a fault of a line or of a write into the same fault of a game that is played line by line.
fn step_fault(fault: ScriptFault) -> StepFault
    ensures { result ≡ stopped_by fault }
{
    match fault {
        ScriptFault::Line { line, reason } => StepFault::Line { line, reason },
        ScriptFault::TooLong => StepFault::TooLong,
        ScriptFault::Failed => StepFault::Unwritten,
        ScriptFault::Memory => StepFault::Memory,
    }
}

impl<'a> Stepper<'a> {
    /// Begins the game, before the first line, with room for the replies to one piece.
    fn begin(alloc: Global, game: &'a Game) -> Result<Stepper<'a>, Memory>
        ensures stepping { IfOk result (IsStepping game.now [] []) }
        ensures empty { IfOk result (λ stepper. stepper.run.text.items ≡ []) }
        ensures len { IfOk result (λ stepper. vec_len stepper.run.text ≡ 0) }
        ensures room { IfOk result (λ stepper. PIECE_BYTES * REPLY_TEXT ≤ vec_capacity stepper.run.text) }
        ensures number { IfOk result (λ stepper. stepper.number ≡ 1) }
    {
        Ok(Stepper {
            run: GameRun::begin(alloc, game, ANSWER_BYTES)?,
            held: HeldLine::new(),
            number: 1,
        })
    }

    /// Plays the line whose end was read, or returns why it is bad.
    fn end_line(&mut self) -> Result<(), ScriptFault>
        requires number { self.old.number < 2 ^ 32 - 1 }
        requires room { vec_len self.old.run.text + REPLY_TEXT ≤ vec_capacity self.old.run.text }
        ensures line { HearsBytes self.old (10 ∷ []) self.new result }
        ensures number { IfOk result (λ _. self.new.number ≡ self.old.number + 1) }
        ensures len { vec_len self.new.run.text ≤ vec_len self.old.run.text + REPLY_TEXT }
        ensures capacity { vec_capacity self.old.run.text ≤ vec_capacity self.new.run.text }
    {
        let Some(line) = self.held.line() else {
            return Err(ScriptFault::Line {
                line: self.number,
                reason: ScriptReason::Form.number(),
            });
        };
        match self.run.step(self.number, line) {
            Ok(()) => {
                self.held.clear();
                self.number += 1;
                Ok(())
            }
            Err(fault) => Err(fault),
        }
    }

    /// Plays the lines that end in a piece of the script, up to a bad one, and holds the bytes after the last of them.
    fn hear(&mut self, piece: &[u8]) -> Result<(), ScriptFault>
        requires number { self.old.number + length piece.now < 2 ^ 32 }
        requires room { vec_len self.old.run.text + length piece.now * REPLY_TEXT ≤ vec_capacity self.old.run.text }
        ensures lines { HearsBytes self.old piece.now self.new result }
        ensures number { IfOk result (λ _. self.new.number ≤ self.old.number + length piece.now) }
        ensures capacity { vec_capacity self.old.run.text ≤ vec_capacity self.new.run.text }
    {
        let mut rest = piece;
        while let Some((part, after)) = cut(rest, b'\n') {
            self.held.join(part);
            self.end_line()?;
            rest = after;
        }
        self.held.join(rest);
        Ok(())
    }

    /// Writes the replies that are not written yet.
    fn flush<K: Sink>(&mut self, out: &mut K) -> Result<(), Failed>
        ensures writes { WritesPiece self.old.run.text.items (K.state out.old) (K.state out.new) result }
        ensures stepping { (game : GameFile) (given written : List ℕ) → IsStepping game given written self.old → IsStepping game given (written ++ self.old.run.text.items) self.new }
        ensures number { self.new.number ≡ self.old.number }
        ensures empty { self.new.run.text.items ≡ [] }
        ensures len { vec_len self.new.run.text ≡ 0 }
        ensures capacity { vec_capacity self.new.run.text ≡ vec_capacity self.old.run.text }
    {
        let wrote = write_all(out, self.run.text());
        self.run.drop_text();
        wrote
    }

    /// Plays a piece of the script, and writes the replies to it.
    fn answer<K: Sink>(&mut self, piece: &[u8], out: &mut K) -> Result<(), StepFault>
        requires number { self.old.number + length piece.now < 2 ^ 32 }
        requires len { vec_len self.old.run.text ≡ 0 }
        requires room { length piece.now * REPLY_TEXT ≤ vec_capacity self.old.run.text }
        ensures answered { AnswersPiece self.old (K.state out.old) piece.now self.new (K.state out.new) result }
        ensures more { TookMore (K.state out.old) (K.state out.new) }
        ensures number { IfOk result (λ _. self.new.number ≤ self.old.number + length piece.now) }
        ensures len { vec_len self.new.run.text ≡ 0 }
        ensures capacity { vec_capacity self.old.run.text ≤ vec_capacity self.new.run.text }
    {
        let heard = self.hear(piece);
        match self.flush(out) {
            Ok(()) => match heard {
                Ok(()) => Ok(()),
                Err(bad) => Err(step_fault(bad)),
            },
            Err(Failed) => Err(StepFault::Unwritten),
        }
    }

    /// Returns the run at the end of the script, or the fault of a last line without a line end.
    fn end(self) -> Result<GameRun<'a>, StepFault>
        ensures { (game : GameFile) (given written : List ℕ) (stepping : IsStepping game given written self.entry) → EndsScript game stepping.lines stepping.rest written result }
    {
        match self.held.line() {
            Some([]) => Ok(self.run),
            _ => Err(StepFault::Line {
                line: self.number,
                reason: ScriptReason::NoLineEnd.number(),
            }),
        }
    }
}

/// The most bytes to read next from a script that gave this many: one, if it gave the most that a script may have.
fn next_most(given: u32) -> usize
    requires { given ≤ TEXT_BYTES }
    ensures some { 0 < result }
    ensures few { result ≤ PIECE_BYTES }
    ensures within { given < TEXT_BYTES → given + result ≤ TEXT_BYTES }
{
    if given == TEXT_BYTES {
        return 1;
    }
    ((TEXT_BYTES - given) as usize).min(PIECE_BYTES)
}

/// Reads at most this many bytes of the selected file into the piece.
fn read_piece<F: Files>(files: &mut F, piece: &mut [u8], most: usize) -> Result<usize, Failed>
    requires most { 0 < most }
    requires room { most ≤ length piece.old }
    requires selected { IsTrue (F.state files.old).selected }
    ensures len { length piece.new ≡ length piece.old }
    ensures size { IfOk result (λ n. length (take n piece.new) ≡ n) }
    ensures given { ReadsAtMost most (F.state files.old).left (F.state files.new).left result piece.new }
    ensures selected { IsTrue (F.state files.new).selected }
    ensures names { (F.state files.new).names ≡ (F.state files.old).names }
    ensures content { (F.state files.new).content ≡ (F.state files.old).content }
    ensures cause { HasCause (F.state files.old).faults (F.state files.new).faults result }
{
    files.read(&mut piece[..most])
}

/// Plays the lines of the selected script while it reads them, and writes the replies to each piece before it reads the next one.
fn hear_lines<'a, F: Files, K: Sink>(
    alloc: Global,
    game: &'a Game,
    files: &mut F,
    out: &mut K,
) -> Result<GameRun<'a>, StepFault>
    requires { IsTrue (F.state files.old).selected }
    ensures lines { HearsLines game.now (F.state files.old) (F.state files.new) (K.state out.old) (K.state out.new) result }
    ensures names { (F.state files.new).names ≡ (F.state files.old).names }
    ensures content { (F.state files.new).content ≡ (F.state files.old).content }
{
    let Ok(mut stepper) = Stepper::begin(alloc, game) else {
        return Err(StepFault::Memory);
    };
    let mut piece = [0; PIECE_BYTES];
    let mut given = 0;
    'pieces: loop {
        let Ok(count) = read_piece(files, &mut piece, next_most(given)) else {
            return Err(StepFault::Unread);
        };
        if count == 0 {
            return stepper.end();
        }
        if given == TEXT_BYTES {
            return Err(StepFault::TooLong);
        }
        stepper.answer(&piece[..count], out)?;
        given += count as u32;
    }
}

/// Plays a whole game on one thread by the lines of the selected file while it reads them. Before each read it writes the replies to all lines read.
/// After the last line it makes the remaining ticks and writes the log. The text, and the first bad line, are those of `play`; the replies to earlier
/// lines are written before it returns the bad line. It returns `Memory` only before it reads anything, or for the log's last part.
pub fn step_game<R: Threads + Sync, F: Files, K: Sink>(
    rt: &R,
    alloc: Global,
    game: &Game,
    files: &mut F,
    out: &mut K,
) -> Result<(), StepFault>
    requires { IsTrue (F.state files.old).selected }
    ensures game { StepsGame game.now (F.state files.old) (F.state files.new) (K.state out.old) (K.state out.new) result }
    ensures names { (F.state files.new).names ≡ (F.state files.old).names }
    ensures content { (F.state files.new).content ≡ (F.state files.old).content }
{
    let run = match hear_lines(alloc, game, files, out) {
        Ok(run) => run,
        Err(fault) => return Err(fault),
    };
    let played = FinishedGame::end(game, run);
    match write_played(rt, alloc, game, &played, out) {
        Ok(()) => Ok(()),
        Err(fault) => Err(step_fault(fault)),
    }
}
