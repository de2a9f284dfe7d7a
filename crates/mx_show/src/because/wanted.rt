//! Which access was wanted at a directory or a segment, what was given, and what of that is not left.

use super::{Told, add_classes, first_path};
use crate::stops::{About, Stop, find_stop, is_left};
use crate::words::id_text;
use mx_acl::{Acl, Modes};
use mx_hier::Refusal;
use mx_judging::Part::Text;
use mx_judging::{Bracket, Closed, Letter, Use, add_parts, add_printable, closing, lacking, ring};
use mx_request::Request;
use mx_sdw::Aim;
use std::alloc::{AllocError, Global};

impl<'t> Told<'t> {
    // What stops the request at a directory, where it comes to this refusal.
    pub(super) fn add_stopped(
        &self,
        alloc: Global,
        out: &mut String,
        request: &Request,
        refusal: Refusal,
    ) -> Result<(), AllocError> {
        match find_stop(alloc, self.ledger, &self.caller, request)? {
            Some(stop) => {
                let may_ask = is_left(self.ledger, &self.caller, stop.said, Letter::S);
                if refusal == Refusal::NoInfo && !may_ask {
                    self.add_withheld(alloc, out, &stop)
                } else if refusal == stop.refusal && may_ask {
                    self.add_about(alloc, out, &stop.about)?;
                    self.add_said(alloc, out, &stop)?;
                    out.push_str("\n")
                } else {
                    Ok(())
                }
            }
            None => match refusal {
                Refusal::IncorrectAccess if !is_root(request) => out.push_str("this is the root\n"),
                Refusal::NotADir | Refusal::NotASeg => self.add_what_it_is(alloc, out, request),
                _ => Ok(()),
            },
        }
    }

    // That s is not left, and what was not told for that.
    fn add_withheld(&self, alloc: Global, out: &mut String, stop: &Stop) -> Result<(), AllocError> {
        self.add_letter(alloc, out, stop.said, Letter::S)?;
        out.push_str("\n(told to the reader alone: ")?;
        if stop.refusal != Refusal::NoInfo {
            add_parts(out, &[Text(stop.refusal.text()), Text("; ")])?;
        }
        match &stop.about {
            About::Letter(dir, letter) if *dir == stop.said => {
                add_parts(out, &[Text(letter.text()), Text(" is wanted there too")])?;
            }
            About::Any(dir) if *dir == stop.said => out.push_str("s, m or a is wanted there")?,
            about => self.add_about(alloc, out, about)?,
        }
        out.push_str(")\n")
    }

    // At which directory it was said, where that is another than the one that it is about.
    fn add_said(&self, alloc: Global, out: &mut String, stop: &Stop) -> Result<(), AllocError> {
        match &stop.about {
            About::Any(_) | About::Open(_) => {}
            About::Letter(dir, _) if *dir != stop.said => {}
            _ => return Ok(()),
        }
        out.push_str("; said at ")?;
        self.add_path(alloc, out, stop.said)
    }

    fn add_about(&self, alloc: Global, out: &mut String, about: &About) -> Result<(), AllocError> {
        match about {
            About::Absent(dir, name) => {
                out.push_str("no ")?;
                add_printable(out, name.bytes())?;
                out.push_str(" in ")?;
                self.add_path(alloc, out, *dir)
            }
            About::Is(at) => self.add_kind(alloc, out, *at),
            About::Eleventh(link) => {
                out.push_str("the eleventh is ")?;
                self.add_path(alloc, out, *link)
            }
            About::Letter(dir, letter) => self.add_letter(alloc, out, *dir, *letter),
            About::Any(dir) => self.add_any(alloc, out, *dir),
            About::Open(at) => self.add_open(alloc, out, *at),
        }
    }

    // A letter that is wanted on a directory, what is given, and why it is not left.
    fn add_letter(
        &self,
        alloc: Global,
        out: &mut String,
        dir: u32,
        letter: Letter,
    ) -> Result<(), AllocError> {
        add_parts(out, &[Text("wanted: "), Text(letter.text()), Text(" on ")])?;
        self.add_path(alloc, out, dir)?;
        let Some(directory) = self.ledger.tree.directory(dir) else {
            return Ok(());
        };
        self.add_given(alloc, out, &directory.acl)?;
        let modes = directory.acl.modes_of(self.caller.principal);
        match lacking(modes, letter, self.caller.ring, directory.d1, directory.d2) {
            Some(lack) => add_parts(out, &lack.parts()),
            None => Ok(()),
        }
    }

    // That no letter is left on a directory.
    fn add_any(&self, alloc: Global, out: &mut String, dir: u32) -> Result<(), AllocError> {
        out.push_str("wanted: s, m or a on ")?;
        self.add_path(alloc, out, dir)?;
        let Some(directory) = self.ledger.tree.directory(dir) else {
            return Ok(());
        };
        self.add_given(alloc, out, &directory.acl)?;
        let modes = directory.acl.modes_of(self.caller.principal);
        let letter = if modes.s() { Letter::S } else { Letter::A };
        match lacking(modes, letter, self.caller.ring, directory.d1, directory.d2) {
            Some(lack) => add_parts(out, &lack.parts()),
            None => Ok(()),
        }
    }

    // The modes that an access list gives, and which entry gives them.
    fn add_given(&self, alloc: Global, out: &mut String, acl: &Acl) -> Result<(), AllocError> {
        match acl.deciding(self.caller.principal) {
            Some((id, modes)) => {
                let id = id_text(alloc, id)?;
                let (given, by) = (Text("; given: "), Text(" by "));
                add_parts(out, &[given, Text(modes.text()), by, Text(&id)])
            }
            None => out.push_str("; given: null, as no entry matches"),
        }
    }

    // That no access to a segment is left.
    fn add_open(&self, alloc: Global, out: &mut String, at: u32) -> Result<(), AllocError> {
        out.push_str("wanted: r, e or w on ")?;
        self.add_path(alloc, out, at)?;
        let Some(segment) = self.ledger.tree.segment(at) else {
            return Ok(());
        };
        self.add_given(alloc, out, &segment.acl)?;
        let modes = segment.acl.modes_of(self.caller.principal);
        let aim = self.caller.authorization.aim(&segment.class);
        if modes != Modes::Null && aim == Aim::Neither {
            add_classes(out, "; the authorization ", &self.caller.authorization)?;
            return add_classes(out, " does not dominate the class ", &segment.class);
        }
        let mut others = false;
        for letter in [Use::R, Use::E, Use::W] {
            match closing(modes, letter, aim, self.caller.ring, &segment.brackets) {
                Some(Closed::Above(bracket)) => {
                    self.add_closed(out, others, " above ", bracket, letter)?;
                    others = true;
                }
                Some(Closed::Below(bracket)) => {
                    self.add_closed(out, others, " below ", bracket, letter)?;
                    others = true;
                }
                Some(Closed::Class) => {
                    out.push_str("; for w the authorization has to equal the class")?;
                }
                Some(Closed::NotGiven) | None => {}
            }
        }
        Ok(())
    }

    // Adds against which bracket the ring stands, for a letter; whether others were told before.
    fn add_closed(
        &self,
        out: &mut String,
        others: bool,
        how: &'static str,
        bracket: Bracket,
        letter: Use,
    ) -> Result<(), AllocError> {
        if others {
            out.push_str(",")?;
        } else {
            let ring = ring(self.caller.ring);
            add_parts(out, &[Text(", but ring "), ring, Text(" is")])?;
        }
        let [name, limit] = bracket.parts();
        add_parts(out, &[Text(how), name, limit, Text(letter.words())])
    }
}

// Whether the pathname of a request is written as the root's path.
fn is_root(request: &Request) -> bool {
    match first_path(request) {
        Some(path) => matches!(path.bytes(), [b'>']),
        None => false,
    }
}
