//! The forms that the tables of directories and files may use (DWARF 5, 7.5.6), and what a table's
//! format says of each field.

ghost use Rattle.std.specs.Prelude.{◌≡◌};
ghost use Rattle.dwarf_line.specs.Form.{form_of, field_of};

use crate::standard::{
    DW_FORM_BLOCK, DW_FORM_DATA1, DW_FORM_DATA2, DW_FORM_DATA4, DW_FORM_DATA8, DW_FORM_DATA16,
    DW_FORM_LINE_STRP, DW_FORM_STRING, DW_FORM_STRP, DW_FORM_UDATA, DW_LNCT_DIRECTORY_INDEX,
    DW_LNCT_PATH,
};

/// A form whose value is a text.
#[derive(Clone, Copy, Debug, PartialEq, Eq)]
pub enum TextForm {
    /// In place, with a zero byte at its end.
    Inline,
    /// At an offset in `.debug_line_str`.
    LineStrp,
    /// At an offset in `.debug_str`.
    Strp,
}

/// A form that may give the number of a directory.
#[derive(Clone, Copy, Debug, PartialEq, Eq)]
pub enum IndexForm {
    Data1,
    Data2,
    Udata,
}

/// How a field's value is stored.
#[derive(Clone, Copy, Debug, PartialEq, Eq)]
pub enum Form {
    Text(TextForm),
    Index(IndexForm),
    Data4,
    Data8,
    Data16,
    /// A length and that many bytes.
    Block,
}

/// One field of each entry of a table.
#[derive(Clone, Copy, Debug, PartialEq, Eq)]
pub enum Field {
    Path(TextForm),
    /// The number of the directory that the path is relative to.
    Directory(IndexForm),
    /// A field that is passed over, as a time stamp, a size or an MD5 digest.
    Other(Form),
}

impl Form {
    /// The form of a code (DWARF 5, table 7.6).
    #[tactic(auto, unfolding(crate::specs::Form::form_of))]
    pub fn from_code(code: u64) -> Option<Form>
        ensures { result ≡ form_of code }
    {
        match code {
            DW_FORM_STRING => Some(Form::Text(TextForm::Inline)),
            DW_FORM_STRP => Some(Form::Text(TextForm::Strp)),
            DW_FORM_LINE_STRP => Some(Form::Text(TextForm::LineStrp)),
            DW_FORM_DATA1 => Some(Form::Index(IndexForm::Data1)),
            DW_FORM_DATA2 => Some(Form::Index(IndexForm::Data2)),
            DW_FORM_UDATA => Some(Form::Index(IndexForm::Udata)),
            DW_FORM_DATA4 => Some(Form::Data4),
            DW_FORM_DATA8 => Some(Form::Data8),
            DW_FORM_DATA16 => Some(Form::Data16),
            DW_FORM_BLOCK => Some(Form::Block),
            _ => None,
        }
    }
}

impl Field {
    /// The field of a content type code (DWARF 5, table 7.27) and a form; `None` where that content
    /// cannot have the form.
    pub fn from_pair(content: u64, form: Form) -> Option<Field>
        ensures { result ≡ field_of content form }
    {
        match (content, form) {
            (DW_LNCT_PATH, Form::Text(form)) => Some(Field::Path(form)),
            (DW_LNCT_DIRECTORY_INDEX, Form::Index(form)) => Some(Field::Directory(form)),
            (DW_LNCT_PATH | DW_LNCT_DIRECTORY_INDEX, _) => None,
            _ => Some(Field::Other(form)),
        }
    }
}
