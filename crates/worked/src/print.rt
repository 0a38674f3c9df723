// How the numbers of an area are shown.
use package::records::Status;
use std::fmt;

// All numbers, each after a space.
#[derive(Clone, Copy)]
pub struct Plain<'a>(pub &'a [i32]);

// The numbers that are not 0, with their indices.
#[derive(Clone, Copy)]
pub struct Places<'a>(pub &'a [i32]);

// Two by two.
#[derive(Clone, Copy)]
pub struct Pairs<'a>(pub &'a [i32]);

// Two by two with their numbers, where not both are 0.
#[derive(Clone, Copy)]
pub struct Wears<'a>(pub &'a [i32]);

// Numbers after their name; nothing where there are none.
#[derive(Clone, Copy)]
pub struct Named<'a>(pub &'a str, pub Option<&'a [i32]>);

// The two wears of a tool; nothing where there is none.
#[derive(Clone, Copy)]
pub struct WearNumbers<'a>(pub Option<&'a [i32]>);

// The triggers of a probe and the bits of its status; nothing where there is none.
#[derive(Clone, Copy)]
pub struct ProbeNumbers<'a>(pub Option<&'a [i32]>);

// The first and the last of numbers after their name; nothing where there are none.
#[derive(Clone, Copy)]
pub struct Ends<'a>(pub &'a str, pub &'a [i32]);

// The bits of a probe's status and the number of directions calibrated, as C is answered.
#[derive(Clone, Copy)]
pub struct Directions(pub Status);

// Bytes in hexadecimal, each after a space.
#[derive(Clone, Copy)]
pub struct Bytes<'a>(pub &'a [u8]);

impl fmt::Display for Plain<'_> {
    fn fmt<W: fmt::Write>(&self, f: &mut fmt::Formatter<W>) -> fmt::Result {
        for v in self.0 {
            write!(f, " {v}")?;
        }
        Ok(())
    }
}

impl fmt::Display for Places<'_> {
    fn fmt<W: fmt::Write>(&self, f: &mut fmt::Formatter<W>) -> fmt::Result {
        for (i, v) in self.0.iter().enumerate() {
            if *v != 0 {
                write!(f, " {i}={v}")?;
            }
        }
        Ok(())
    }
}

impl fmt::Display for Pairs<'_> {
    fn fmt<W: fmt::Write>(&self, f: &mut fmt::Formatter<W>) -> fmt::Result {
        let (pairs, _) = self.0.as_chunks::<2>();
        for [v, w] in pairs {
            write!(f, " {v}/{w}")?;
        }
        Ok(())
    }
}

impl fmt::Display for Wears<'_> {
    fn fmt<W: fmt::Write>(&self, f: &mut fmt::Formatter<W>) -> fmt::Result {
        let (pairs, _) = self.0.as_chunks::<2>();
        for (n, pair) in (1..=pairs.len()).zip(pairs) {
            let [v, w] = *pair;
            if (v != 0) | (w != 0) {
                write!(f, " {n}={v}/{w}")?;
            }
        }
        Ok(())
    }
}

impl fmt::Display for Named<'_> {
    fn fmt<W: fmt::Write>(&self, f: &mut fmt::Formatter<W>) -> fmt::Result {
        match self.1 {
            None | Some([]) => Ok(()),
            Some(values) => write!(f, " {}{}", self.0, Plain(values)),
        }
    }
}

impl fmt::Display for WearNumbers<'_> {
    fn fmt<W: fmt::Write>(&self, f: &mut fmt::Formatter<W>) -> fmt::Result {
        match self.0 {
            Some([radius, length]) => write!(f, " radius {radius} length {length}"),
            _ => Ok(()),
        }
    }
}

impl fmt::Display for ProbeNumbers<'_> {
    fn fmt<W: fmt::Write>(&self, f: &mut fmt::Formatter<W>) -> fmt::Result {
        match self.0.and_then(|numbers| numbers.split_last()) {
            Some((bits, triggers)) => write!(f, " triggers{} bits {bits}", Plain(triggers)),
            None => Ok(()),
        }
    }
}

impl fmt::Display for Ends<'_> {
    fn fmt<W: fmt::Write>(&self, f: &mut fmt::Formatter<W>) -> fmt::Result {
        match (self.1.first(), self.1.last()) {
            (Some(first), Some(last)) => write!(f, " {} {first} {last}", self.0),
            _ => Ok(()),
        }
    }
}

impl fmt::Display for Directions {
    fn fmt<W: fmt::Write>(&self, f: &mut fmt::Formatter<W>) -> fmt::Result {
        write!(f, " bits {} count {}", self.0.bits, self.0.count)
    }
}

impl fmt::Display for Bytes<'_> {
    fn fmt<W: fmt::Write>(&self, f: &mut fmt::Formatter<W>) -> fmt::Result {
        for b in self.0 {
            write!(f, " {b:02x}")?;
        }
        Ok(())
    }
}
