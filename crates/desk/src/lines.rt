// The lines of a script.
use run::call::Call;

#[derive(Clone, Copy, PartialEq, Eq, Debug)]
pub enum Line {
    Call(Call),
    Help,
}

impl Line {
    ghost use Rattle.desk.specs.Lines.{Words, AreWords, Says};

    // What a line says: a call, or the word help; any other line says nothing.
    pub fn read(line: &str) -> Option<Line>
        ensures { (words : Words) × AreWords line.now words × Says words result }
    {
        // No form has more than four words, so of more than that five are kept.
        let mut words = [""; 5];
        let mut count = 0;
        for word in line.split_whitespace() {
            if count < 5 {
                words[count] = word;
                count += 1;
            }
        }
        Line::said(&words[..count])
    }

    fn said(words: &[&str]) -> Option<Line>
        ensures { Says words.now result }
    {
        let call = match *words {
            ["help"] => return Some(Line::Help),
            ["open"] => Call::Open,
            ["settle"] => Call::Settle,
            ["seek"] => Call::Seek,
            ["keep", serial] => Call::Keep(serial.parse().ok()?),
            ["drop", serial] => Call::Drop(serial.parse().ok()?),
            ["ask", cell] => Call::Ask(cell.parse().ok()?),
            ["tighten", cell, low, high] => Call::Tighten {
                cell: cell.parse().ok()?,
                low: low.parse().ok()?,
                high: high.parse().ok()?,
            },
            _ => return None,
        };
        Some(Line::Call(call))
    }
}
