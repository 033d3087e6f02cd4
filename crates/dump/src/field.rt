// How the numbers of a row are written.
ghost use Rattle.std.specs.Prelude.{◌≡◌, [], Some};
ghost use Rattle.dump.specs.declared.field.Field.TheVariants.{Number};
ghost use Rattle.dump.specs.Texts.{roles_of, role_texts, field_text, fields_text};

use order::{RoleSet, roles_of};
use std::fmt;

// A number of a row: as it is, or the role set that it stands for.
#[derive(Clone, Copy, Debug, PartialEq, Eq)]
pub enum Field {
    Number(u64),
    Set(RoleSet),
}

impl From<u32> for Field {
    ghost from_gives = { λ value field. field ≡ Number value };

    fn from(value: u32) -> Field {
        Field::Number(u64::from(value))
    }
}

// The roles of a set with commas between them.
#[derive(Clone, Copy, Debug)]
struct RoleTexts(RoleSet);

impl fmt::Display for RoleTexts {
    ghost output = { λ roles. Some (role_texts [] (roles_of roles.0)) };

    fn fmt<W: fmt::Write>(&self, f: &mut fmt::Formatter<W>) -> fmt::Result {
        let mut comma = "";
        for role in roles_of(self.0) {
            write!(f, "{comma}{role}")?;
            comma = ",";
        }
        Ok(())
    }
}

impl fmt::Display for Field {
    ghost output = { λ field. Some (field_text field) };

    fn fmt<W: fmt::Write>(&self, f: &mut fmt::Formatter<W>) -> fmt::Result {
        match *self {
            Field::Number(number) => write!(f, "{number}"),
            Field::Set(set) => write!(f, "{{{}}}", RoleTexts(set)),
        }
    }
}

// The fields of a row, a space before each.
#[derive(Clone, Copy, Debug)]
pub(crate) struct FieldTexts<'a>(pub(crate) &'a [Field]);

impl fmt::Display for FieldTexts<'_> {
    ghost output = { λ fields. Some (fields_text fields.0.now) };

    fn fmt<W: fmt::Write>(&self, f: &mut fmt::Formatter<W>) -> fmt::Result {
        for field in self.0 {
            write!(f, " {field}")?;
        }
        Ok(())
    }
}
