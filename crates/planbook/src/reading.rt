// What a word of a call says: an id, a figure, a tick, or the name of a file.
ghost use Rattle.std.specs.Prelude.{◌≡◌};
ghost use Rattle.script.specs.Numerals.{number_up_to};
ghost use Rattle.planbook.specs.Reading.{Reads};
ghost use Rattle.planbook.specs.declared.failure.LineFault.TheVariants.{NoId, NoFigure, NoTick};
ghost use Rattle.std.specs.Option.{ok_or};

use crate::failure::LineFault;
use script::number_up_to;
use std::num::TryFromIntError;
use std::ops::Range;
use std::str;
use tasks::Figures;

// An id, a figure and a tick are read in one way, by `number`; each has a clause that says its limit and its fault.
pub fn read_id(word: &[u8]) -> Result<u8, LineFault>
    ensures { result ≡ ok_or (number_up_to 255 word.now) NoId }
{
    number(word).ok_or(LineFault::NoId)
}

fn read_figure(word: &[u8]) -> Result<u16, LineFault>
    ensures { result ≡ ok_or (number_up_to 65535 word.now) NoFigure }
{
    number(word).ok_or(LineFault::NoFigure)
}

pub fn read_tick(word: &[u8]) -> Result<u32, LineFault>
    ensures { result ≡ ok_or (number_up_to 4294967295 word.now) NoTick }
{
    number(word).ok_or(LineFault::NoTick)
}

pub fn read_window(from: &[u8], to: &[u8]) -> Result<Range<u32>, LineFault> {
    Ok(read_tick(from)?..read_tick(to)?)
}

pub fn read_file(word: &[u8]) -> Result<&str, LineFault> {
    str::from_utf8(word).map_err(|_| LineFault::NoFile)
}

pub fn read_figures(work: &[u8], period: &[u8], deadline: &[u8]) -> Result<Figures, LineFault> {
    Ok(Figures::new(
        read_figure(work)?,
        read_figure(period)?,
        read_figure(deadline)?,
    ))
}

// The number that the word writes, where its type holds it.
pub fn number<T: TryFrom<u32, Error = TryFromIntError> + Drop>(word: &[u8]) -> Option<T>
    ensures { Reads T.try_from_gives word.now result }
{
    let number = number_up_to(u32::MAX, word)?;
    T::try_from(number).ok()
}
