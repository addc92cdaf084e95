// What the program is asked for.
use refusal::Refusal;
use std::alloc::AllocError;
use std::str::FromStr;
use std::{env, fmt, fs, io};

// Not shared with other programs: each has other kinds, and no library knows a program's words.
#[derive(Clone, Copy, Debug, PartialEq, Eq)]
pub enum Kind {
    List,
    Module,
    Window,
}

// What a pass does.
#[derive(Clone, Copy, Debug, PartialEq, Eq)]
pub enum Pass {
    Deliver,
    Picture,
}

#[derive(Drop)]
pub struct Call {
    pub pass: Pass,
    pub kind: Kind,
    pub bytes: Vec<u8>,
    pub times: u32,
}

#[derive(Drop)]
pub enum Failure {
    Usage,
    File(io::Error),
    Refused(Refusal),
    Memory,
}

impl fmt::Display for Failure {
    fn fmt<W: fmt::Write>(&self, f: &mut fmt::Formatter<W>) -> fmt::Result {
        match self {
            Failure::Usage => f.write_str(
                "usage: speed deliver|picture list|module|window FILE TIMES",
            ),
            Failure::File(why) => write!(f, "speed: {why}"),
            Failure::Refused(refusal) => write!(f, "speed: refused {refusal}"),
            Failure::Memory => f.write_str("speed: there is not enough memory"),
        }
    }
}

impl From<io::Error> for Failure {
    fn from(why: io::Error) -> Failure {
        Failure::File(why)
    }
}

impl From<AllocError> for Failure {
    fn from(_why: AllocError) -> Failure {
        Failure::Memory
    }
}

impl From<Refusal> for Failure {
    fn from(refusal: Refusal) -> Failure {
        Failure::Refused(refusal)
    }
}

impl FromStr for Pass {
    type Err = Failure;

    fn from_str(word: &str) -> Result<Pass, Failure> {
        match word {
            "deliver" => Ok(Pass::Deliver),
            "picture" => Ok(Pass::Picture),
            _ => Err(Failure::Usage),
        }
    }
}

impl FromStr for Kind {
    type Err = Failure;

    fn from_str(word: &str) -> Result<Kind, Failure> {
        match word {
            "list" => Ok(Kind::List),
            "module" => Ok(Kind::Module),
            "window" => Ok(Kind::Window),
            _ => Err(Failure::Usage),
        }
    }
}

pub(crate) fn called(rt: &HostRuntime) -> Result<Call, Failure> {
    let mut words = env::args(rt)?.skip(1);
    let (Some(pass), Some(kind), Some(path), Some(times)) = (
        words.next(),
        words.next(),
        words.next(),
        words.next(),
    ) else {
        return Err(Failure::Usage);
    };
    let times = times.parse::<u32>().map_err(|_| Failure::Usage)?;
    let pass = pass.parse()?;
    let kind = kind.parse()?;
    let bytes = fs::read(rt, &path)?;
    Ok(Call {
        pass,
        kind,
        bytes,
        times,
    })
}
