ghost use Rattle.std.specs.Prelude.{◌<◌, ◌≤◌};

use crate::calls::run;
use crate::scripts::lines_of;
use sbp_command::Status;
use std::alloc::Global;
use std::test::Fail;

/// The lines that long scripts are made of; some are a few lines with `/` between them. A capital letter
/// stands for a number that is drawn: `I` an initiator, `J` the last digit of its first node ID, `K` an
/// ORB, `B` a block, `U` a unit, `C` a count, `S` one of the last packets, `L` a label with the retry code,
/// `P` and `Q` the digit of a register of an agent.
const LINES: &str =
    "step C\nstep C\nstep C\nstep C\nstep C\nstep C\nstep C\nstep C\nsettle\nsettle\n\
append I tur\nappend I tur\nappend I read B 1\nappend I read B 2 seg 1000,24 pay 7\n\
append I write B 5a*512\nappend I write B 11*500+22*12 seg 500,12 pay 7\nappend I write12 B 33*1024\n\
append I read12 B 2 pay 8\nappend I inquiry\nappend I capacity\nappend I sync\nappend I verify B 1\n\
append I stop/append I tur/append I start\nenable 1/settle/append I eject/append I load/settle\nappend I prevent\n\
append I allow\nput I tur/low I/step C/link I/ring I\nput I read B 1\nlow I\nlink I\nring I\nappend I tur/dummy I K\n\
abort I K\nabort I K/step C\nabortset I\nlureset I\ntreset I/settle\nagentreset I\nagentreset I/settle\n\
state I\nenable I/settle\nquery I U/settle\nrom I\nlogin I U 2\nlogin I 0 3 excl\n\
login I U 1 pass 0102030405060708\nlogout I/settle\nreconnect I\nkey U 0102030405060708\n\
key U 0000000000000000\ntick\nlogin I 0 3/settle\nsee I\nsee t\n\
reset 9 8 7 6 5/see I/step C/see t/see 0/see 1/see 2/see 3/reconnect 0/settle/reconnect 1/settle\n\
reset 0 1 2 3 4/see t/see 0/see 1/see 2/see 3/reconnect 0/settle/reconnect 1/settle/reconnect 2/settle/reconnect 3/settle\n\
reset 0 1 2 3 4/see 0/see 1/see 2/see 3/see t/reconnect 3/settle/reconnect 2/settle/reconnect 1/settle/reconnect 0/settle\n\
inject I ffc00L00ffcJfffff00400P400000001\ninject I ffc00L10ffcJfffff00400P8000800000000000010000000\n\
inject I ffc00L00ffcJfffff00400Q000000007\ninject I ffc00L10ffcJfffff0010000000800000000000012000000\n\
inject I ffc00L50ffcJfffff000040400080000\ninject I ffc00L90ffcJfffff0000400000800020000000000000001\n\
inject I ffc00L70ffcJ000000000000002000008000000000000000000000000000000082900000000000000000000000000000\n\
inject I ffc00L20ffcJ000000000000\ninject I ffc00L30ffcJ00\ninject I ffc10L00ffcJ00001000000000000000\n\
inject I ffc00L00ffc9fffff004000400000001";

/// How many there are.
const COUNT: u64 = 68;

/// The lines that say what becomes of a packet.
const FATES: &str =
    "deliver S\ndeliver S\nrepeat S\nlose S\ntimeout S\nlose S/timeout S\ntimeout S/deliver S\nstep C";

/// How many there are.
const FATES_COUNT: u64 = 8;

/// How a script begins whose initiators log in by themselves.
const COLD: &str =
    "begin 4 cold\nrom 0\nrom 1\nrom 2\nrom 3\nsettle\nlogin 0 0 3\nsettle\nlogin 1 0 2\n\
settle\nlogin 2 1 0 excl\nsettle\nlogin 3 0 4\nsettle\n";

/// The first words of the lines of a script, `begin` and those of the ten long ones.
const SCRIPT_WORDS: &str = "append put low link ring dummy step settle deliver repeat lose timeout \
reset see tick key inject rom login query reconnect logout abort abortset lureset treset agentreset \
state enable";

/// The first words of the notes that the ten long scripts bring.
const NOTE_WORDS: &str =
    "begin append low linked rung dummied sent injected got ignored lost timedout \
ran ended taken cut dead drop mgmt held back left cleared op stuck key reset \
seen tick refused settled";

/// Numbers that look random, and are the same in each run.
#[derive(Drop)]
struct Draws {
    x: u64,
}

impl Draws {
    /// A number below `most`.
    fn below(&mut self, most: u64) -> u64
        requires { 1 ≤ most }
        ensures { result < most }
    {
        let x = self.x.wrapping_mul(6364136223846793005);
        self.x = x.wrapping_add(1442695040888963407);
        (self.x >> 33) % most
    }

    /// The number that a letter of a line stands for, where the last packet has this serial.
    fn number(&mut self, letter: char, initiator: u64, last: u64) -> Option<u64>
        requires { initiator < 4 }
    {
        match letter {
            'I' => Some(initiator),
            'J' => Some(initiator + 1),
            'K' | 'U' => Some(self.below(4)),
            'B' => Some(self.below(64)),
            'C' => Some(self.below(6) + 1),
            'S' => Some(last.saturating_sub(self.below(10)).max(1)),
            'L' => Some(4 * self.below(3) + 1),
            'P' => Some(2 * self.below(4)),
            'Q' => Some(2 * self.below(4) + 1),
            _ => None,
        }
    }
}

/// Adds a line, or a few, with numbers that are drawn. So many packets were sent.
fn add_line(
    alloc: Global,
    draws: &mut Draws,
    line: &str,
    last: u64,
    script: &mut String,
) -> Result<(), Fail> {
    let initiator = draws.below(4);
    for letter in line.chars() {
        match draws.number(letter, initiator, last) {
            Some(number) => script.push_str(format!(in alloc; "{number}")?.as_str())?,
            None if letter == '/' => script.push_str("\n")?,
            None => script.push(letter)?,
        }
    }
    script.push_str("\n")?;
    Ok(())
}

/// Adds thirty lines that are drawn, of which the first ones say what becomes of the last packets.
fn add_lines(alloc: Global, draws: &mut Draws, last: u64, script: &mut String) -> Result<(), Fail> {
    for place in 0..30u32 {
        let line = if place < 6 {
            FATES.lines().nth(draws.below(FATES_COUNT) as usize)
        } else {
            LINES.lines().nth(draws.below(COUNT) as usize)
        };
        add_line(alloc, draws, line.ok_or("line")?, last, script)?;
    }
    Ok(())
}

/// How many packets a script sends.
fn packets(alloc: Global, script: &str) -> Result<u64, Fail> {
    let ended = run(alloc, script)?;
    let sent = lines_of(alloc, "sent", ended.written.as_str())?;
    Ok(sent.as_str().lines().count() as u64)
}

/// A script of four initiators, of some hundred lines: each thirty are drawn when those before have run.
fn long_script(alloc: Global, number: u64) -> Result<String, Fail> {
    let mut draws = Draws { x: number };
    let begin = if number % 2 == 0 {
        "begin 4 ready\n"
    } else {
        COLD
    };
    let mut script = String::from_str(alloc, begin)?;
    for _ in 0..4 {
        let last = packets(alloc, script.as_str())?;
        add_lines(alloc, &mut draws, last, &mut script)?;
    }
    Ok(script)
}

/// Whether each of these words begins a line of a text.
fn has_all(alloc: Global, words: &str, text: &str) -> Result<bool, Fail> {
    for word in words.split(" ") {
        if lines_of(alloc, word, text)?.as_str().is_empty() {
            return Ok(false);
        }
    }
    Ok(true)
}

/// Ten long scripts of all lines end, and write the same once more. All but the rarest notes are among them.
#[test]
fn long_scripts_end(rt: HostRuntime) -> Result<(), Fail> {
    let alloc = rt.alloc();
    let mut scripts = String::new(alloc);
    let mut journals = String::new(alloc);
    for number in 0..10u64 {
        let script = long_script(alloc, number)?;
        let ended = run(alloc, script.as_str())?;
        let again = run(alloc, script.as_str())?;
        assert_eq!(rt; ended.status, Status::Done, "script {number}");
        assert_eq!(rt;
            again.written.as_str(),
            ended.written.as_str(),
            "script {number}"
        );
        scripts.push_str(script.as_str())?;
        journals.push_str(ended.written.as_str())?;
    }
    assert!(rt; has_all(alloc, SCRIPT_WORDS, scripts.as_str())?);
    assert!(rt; has_all(alloc, NOTE_WORDS, journals.as_str())?);
    Ok(())
}
