// The structs of the C interface, and which struct each answer of the library is (01-scope.md, "The console's old C
// program calls the library with numbers and byte pointers"). Refusal 0 stands for success. The exports themselves are
// the crate vestumbral.
#![tactic(auto)]

ghost use Rattle.std.specs.Prelude.{◌≡◌, Ok};
ghost use Rattle.reader.specs.Reading.{reading_of};
ghost use Rattle.outline.specs.Outline.{outline_of};
ghost use Rattle.answers.specs.Answers.{refused_reply, voxel_reply, swap_reply, line_reply, edit_reply};
ghost use Rattle.answers.specs.Answers.{refused_file, file_answer, refused_extension, extension_shown, slice_answer};
ghost use Rattle.answers.specs.Answers.{ranked_answer, position_answer};

use affine::Position;
use edit::NewFile;
use field::Number;
use outline::Outline;
use refusal::{Refusal, Rule};
use timing::Slice;
use voxel::Extent;

// The answer of voxel, swap, edit and line; `aligned` is said by an edit alone.
#[repr(C)]
#[derive(Clone, Copy)]
pub struct Reply {
    pub refusal: u64,
    pub place: u64,
    pub length: u64,
    pub aligned: u64,
}

// What reading a file answers.
#[repr(C)]
#[derive(Clone, Copy)]
pub struct FileAnswer {
    pub refusal: u64,
    pub place: u64,
    pub data_offset: u64,
    pub data_bytes: u64,
    pub big_endian: u32,
    pub pair: u32,
    pub dim: [i16; 8],
    pub datatype: i16,
    pub bitpix: i16,
    pub extensions: u32,
    pub step: [u64; 7],
    pub aligned: u32,
}

// One extension.
#[repr(C)]
#[derive(Clone, Copy)]
pub struct ExtensionAnswer {
    pub refusal: u64,
    pub place: u64,
    pub start: u64,
    pub size: i32,
    pub code: i32,
}

// One slice: state 0 unstated, 1 padding, 2 timed.
#[repr(C)]
#[derive(Clone, Copy)]
pub struct SliceAnswer {
    pub refusal: u64,
    pub place: u64,
    pub state: u32,
    pub rank: u32,
    pub seconds: f32,
}

// The slice of a rank: stated 0 where timing is unstated.
#[repr(C)]
#[derive(Clone, Copy)]
pub struct RankedAnswer {
    pub refusal: u64,
    pub place: u64,
    pub stated: u32,
    pub slice: u32,
}

// A position.
#[repr(C)]
#[derive(Clone, Copy)]
pub struct PositionAnswer {
    pub refusal: u64,
    pub place: u64,
    pub x: f32,
    pub y: f32,
    pub z: f32,
}

// Each answer of the library as its struct.
impl From<Refusal> for Reply {
    ghost from_gives = { λ r a. a ≡ refused_reply r };

    fn from(r: Refusal) -> Reply {
        Reply {
            refusal: r.number(),
            place: r.place as u64,
            length: 0,
            aligned: 0,
        }
    }
}

impl From<Refusal> for FileAnswer {
    ghost from_gives = { λ r a. a ≡ refused_file r };

    fn from(r: Refusal) -> FileAnswer {
        FileAnswer {
            refusal: r.number(),
            place: r.place as u64,
            data_offset: 0,
            data_bytes: 0,
            big_endian: 0,
            pair: 0,
            dim: [0i16; 8],
            datatype: 0,
            bitpix: 0,
            extensions: 0,
            step: [0u64; 7],
            aligned: 0,
        }
    }
}

impl From<Refusal> for ExtensionAnswer {
    ghost from_gives = { λ r a. a ≡ refused_extension r };

    fn from(r: Refusal) -> ExtensionAnswer {
        ExtensionAnswer {
            refusal: r.number(),
            place: r.place as u64,
            start: 0,
            size: 0,
            code: 0,
        }
    }
}

// An accepted file: what its outline has, three fields beside it and the steps that they give, so that no record is made.
pub fn shown_file(file: &[u8], outline: Outline) -> FileAnswer
    requires { outline_of 0 file.now ≡ Ok outline }
    ensures { result ≡ file_answer (reading_of file.now) }
{
    let layout = outline.layout;
    let count = outline.count as u32;
    let dim = header::dims(file, layout.order);
    let bitpix = i16::read(file, 72, layout.order);
    let sizes = sizes::sizes_in(dim, bitpix);
    let step = sizes.steps;
    FileAnswer {
        refusal: 0,
        place: 0,
        data_offset: layout.image.offset,
        data_bytes: layout.image.bytes,
        big_endian: layout.order as u32,
        pair: layout.kind as u32,
        dim,
        datatype: i16::read(file, 70, layout.order),
        bitpix,
        extensions: count,
        step,
        aligned: u32::from(layout.aligned),
    }
}

// The extension that an outline was made for; 18 past the last.
pub fn shown_extension(outline: Outline, number: usize) -> ExtensionAnswer
    ensures { result ≡ extension_shown outline.count outline.span number }
{
    if outline.count <= number {
        return Rule::NoSuchExtension.at(0).into();
    }
    let x = outline.span;
    ExtensionAnswer {
        refusal: 0,
        place: 0,
        start: x.start as u64,
        size: x.size,
        code: x.code,
    }
}

impl From<Result<Extent, Refusal>> for Reply {
    ghost from_gives = { λ located a. a ≡ voxel_reply located };

    fn from(located: Result<Extent, Refusal>) -> Reply {
        match located {
            Ok(extent) => Reply {
                refusal: 0,
                place: extent.place,
                length: extent.length,
                aligned: 0,
            },
            Err(r) => r.into(),
        }
    }
}

// A swap has no number of its own.
impl From<Result<(), Refusal>> for Reply {
    ghost from_gives = { λ swapped a. a ≡ swap_reply swapped };

    fn from(swapped: Result<(), Refusal>) -> Reply {
        match swapped {
            Ok(()) => Reply {
                refusal: 0,
                place: 0,
                length: 0,
                aligned: 0,
            },
            Err(r) => r.into(),
        }
    }
}

// The bytes of a line.
impl From<Result<usize, Refusal>> for Reply {
    ghost from_gives = { λ copied a. a ≡ line_reply copied };

    fn from(copied: Result<usize, Refusal>) -> Reply {
        match copied {
            Ok(length) => Reply {
                refusal: 0,
                place: 0,
                length: length as u64,
                aligned: 0,
            },
            Err(r) => r.into(),
        }
    }
}

impl From<Result<NewFile, Refusal>> for Reply {
    ghost from_gives = { λ edited a. a ≡ edit_reply edited };

    fn from(edited: Result<NewFile, Refusal>) -> Reply {
        match edited {
            Ok(file) => Reply {
                refusal: 0,
                place: 0,
                length: file.length as u64,
                aligned: u64::from(file.aligned),
            },
            Err(r) => r.into(),
        }
    }
}

impl From<Result<Slice, Refusal>> for SliceAnswer {
    ghost from_gives = { λ slice a. a ≡ slice_answer slice };

    fn from(slice: Result<Slice, Refusal>) -> SliceAnswer {
        let unstated = SliceAnswer {
            refusal: 0,
            place: 0,
            state: 0,
            rank: 0,
            seconds: 0.0,
        };
        match slice {
            Ok(Slice::Unstated) => unstated,
            Ok(Slice::Padding) => SliceAnswer {
                state: 1,
                ..unstated
            },
            Ok(Slice::Timed(rank, seconds)) => SliceAnswer {
                state: 2,
                rank: u32::from(rank),
                seconds,
                ..unstated
            },
            Err(r) => SliceAnswer {
                refusal: r.number(),
                place: r.place as u64,
                ..unstated
            },
        }
    }
}

impl From<Result<Option<u16>, Refusal>> for RankedAnswer {
    ghost from_gives = { λ ranked a. a ≡ ranked_answer ranked };

    fn from(ranked: Result<Option<u16>, Refusal>) -> RankedAnswer {
        let unstated = RankedAnswer {
            refusal: 0,
            place: 0,
            stated: 0,
            slice: 0,
        };
        match ranked {
            Ok(None) => unstated,
            Ok(Some(slice)) => RankedAnswer {
                stated: 1,
                slice: u32::from(slice),
                ..unstated
            },
            Err(r) => RankedAnswer {
                refusal: r.number(),
                place: r.place as u64,
                ..unstated
            },
        }
    }
}

impl From<Result<Position, Refusal>> for PositionAnswer {
    ghost from_gives = { λ position a. a ≡ position_answer position };

    fn from(position: Result<Position, Refusal>) -> PositionAnswer {
        match position {
            Ok(p) => PositionAnswer {
                refusal: 0,
                place: 0,
                x: p.x,
                y: p.y,
                z: p.z,
            },
            Err(r) => PositionAnswer {
                refusal: r.number(),
                place: r.place as u64,
                x: 0.0,
                y: 0.0,
                z: 0.0,
            },
        }
    }
}
