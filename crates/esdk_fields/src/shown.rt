//! The errors as a program shows them: the number and the name that begin the printed line. The
//! whole line, with its values, is `fault_text`'s, `refusal_text`'s, `file_text`'s or
//! `outside_text`'s.

ghost use Rattle.std.specs.Prelude.{◌≡◌};
ghost use Rattle.esdk_fields.specs.Names.{field_error_text};

use crate::faults::{ContextFault, Fault};
use crate::refusals::{FieldError, FileRefusal, Outside, Refusal};
use std::error::Error;
use std::fmt;

impl fmt::Display for Fault {
    ghost use Rattle.std.specs.Prelude.{Some};
    ghost use Rattle.esdk_fields.specs.Names.{fault_name};

    ghost output = { λ e. Some (fault_name e) };

    fn fmt<W: fmt::Write>(&self, f: &mut fmt::Formatter<W>) -> fmt::Result {
        f.write_str(self.name())
    }
}

impl fmt::Display for Refusal {
    ghost use Rattle.std.specs.Prelude.{Some};
    ghost use Rattle.esdk_fields.specs.Names.{refusal_name};

    ghost output = { λ e. Some (refusal_name e) };

    fn fmt<W: fmt::Write>(&self, f: &mut fmt::Formatter<W>) -> fmt::Result {
        f.write_str(self.name())
    }
}

impl fmt::Display for FileRefusal {
    ghost use Rattle.std.specs.Prelude.{Some};
    ghost use Rattle.esdk_fields.specs.Names.{file_name};

    ghost output = { λ e. Some (file_name e) };

    fn fmt<W: fmt::Write>(&self, f: &mut fmt::Formatter<W>) -> fmt::Result {
        f.write_str(self.name())
    }
}

impl fmt::Display for Outside {
    ghost use Rattle.std.specs.Prelude.{Some};
    ghost use Rattle.esdk_fields.specs.Names.{outside_name};

    ghost output = { λ e. Some (outside_name e) };

    fn fmt<W: fmt::Write>(&self, f: &mut fmt::Formatter<W>) -> fmt::Result {
        f.write_str(self.name())
    }
}

impl fmt::Display for ContextFault {
    ghost use Rattle.std.specs.Prelude.{Some};
    ghost use Rattle.esdk_fields.specs.Names.{kind_name};

    ghost output = { λ e. Some (kind_name e) };

    fn fmt<W: fmt::Write>(&self, f: &mut fmt::Formatter<W>) -> fmt::Result {
        f.write_str(self.name())
    }
}

impl FieldError {
    /// What is shown of it: the fault's number and name, or what else came.
    #[tactic(auto, unfolding(crate::specs::Names::field_error_text))]
    fn shown(&self) -> &'static str
        ensures { result.now ≡ field_error_text self.now }
    {
        match self {
            FieldError::Fault(fault) => fault.name(),
            FieldError::Stopped => "an earlier call answered an error",
            FieldError::Memory => "memory ran out",
        }
    }
}

impl fmt::Display for FieldError {
    ghost use Rattle.std.specs.Prelude.{Some};
    ghost use Rattle.esdk_fields.specs.Names.{field_error_text};

    ghost output = { λ e. Some (field_error_text e) };

    fn fmt<W: fmt::Write>(&self, f: &mut fmt::Formatter<W>) -> fmt::Result {
        f.write_str(self.shown())
    }
}

impl fmt::Debug for Fault {
    fn fmt<W: fmt::Write>(&self, f: &mut fmt::Formatter<W>) -> fmt::Result {
        fmt::Display::fmt(self, f)
    }
}

impl fmt::Debug for Refusal {
    fn fmt<W: fmt::Write>(&self, f: &mut fmt::Formatter<W>) -> fmt::Result {
        fmt::Display::fmt(self, f)
    }
}

impl fmt::Debug for FileRefusal {
    fn fmt<W: fmt::Write>(&self, f: &mut fmt::Formatter<W>) -> fmt::Result {
        fmt::Display::fmt(self, f)
    }
}

impl fmt::Debug for FieldError {
    fn fmt<W: fmt::Write>(&self, f: &mut fmt::Formatter<W>) -> fmt::Result {
        fmt::Display::fmt(self, f)
    }
}

impl Error for ContextFault {}

impl Error for Fault {}

impl Error for Refusal {}

impl Error for FileRefusal {}

impl Error for Outside {}

impl Error for FieldError {}
