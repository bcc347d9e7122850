// The recorded calls: kind S is a struct walk, kind X an exact one, kind O an object walk.
use framing::Walk;
use recorded::answers::Fault;
use recorded::fields::Parts;
use recorded::{fields, lists};

// The first `bits` bits of the bytes.
#[derive(Clone, Copy)]
pub struct Window<'a> {
    pub bits: u32,
    pub bytes: &'a [u8],
}

// Declared numbers and their name pool.
#[derive(Clone, Copy)]
pub struct Declared<'a> {
    pub numbers: &'a [u8],
    pub names: &'a [u8],
}

// A schema, and the level that a walk starts at.
#[derive(Clone, Copy)]
pub struct Schema<'a> {
    // Whether the twelve levels are meant; the case has no table then.
    pub twelve: bool,
    pub levels: u32,
    pub root: u32,
    pub rows: &'a [u8],
    pub names: &'a [u8],
}

#[derive(Clone, Copy)]
pub enum Call<'a> {
    Struct(Schema<'a>, Declared<'a>, Window<'a>),
    Exact(Declared<'a>, Window<'a>),
    Object(Window<'a>),
}

impl<'a> Window<'a> {
    fn of(parts: &mut Parts<'a>) -> Result<Window<'a>, Fault> {
        Ok(Window {
            bits: parts.short_number()?,
            bytes: parts.run()?,
        })
    }
}

impl<'a> Declared<'a> {
    fn of(parts: &mut Parts<'a>) -> Result<Declared<'a>, Fault> {
        Ok(Declared {
            numbers: parts.run()?,
            names: parts.run()?,
        })
    }
}

impl<'a> Call<'a> {
    // Of kind S: a schema, then what kind X has. Only where all its parts are there a number in them can be at fault.
    fn of_struct(parts: &mut Parts<'a>) -> Result<Call<'a>, Fault> {
        let twelve = parts.number()?;
        let levels = parts.short_number()?;
        let root = parts.short_number()?;
        let rows = parts.run()?;
        let names = parts.run()?;
        let declared = Declared::of(parts)?;
        let window = Window::of(parts)?;
        let schema = Schema {
            twelve: fields::flag(twelve)?,
            levels,
            root,
            rows,
            names,
        };
        lists::check_tables(rows, declared.numbers)?;
        Ok(Call::Struct(schema, declared, window))
    }

    // Of kind X: declared names, then the window.
    fn of_exact(parts: &mut Parts<'a>) -> Result<Call<'a>, Fault> {
        let declared = Declared::of(parts)?;
        let window = Window::of(parts)?;
        lists::check_tables(&[], declared.numbers)?;
        Ok(Call::Exact(declared, window))
    }

    // The call of such a walk.
    pub fn of(walk: Walk, parts: &mut Parts<'a>) -> Result<Call<'a>, Fault> {
        match walk {
            Walk::Struct => Call::of_struct(parts),
            Walk::Exact => Call::of_exact(parts),
            Walk::Object => Ok(Call::Object(Window::of(parts)?)),
        }
    }
}
