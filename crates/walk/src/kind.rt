// What a line can ask for, by the name that it begins with.
use crate::call::Call;

#[derive(Clone, Copy)]
pub(crate) enum Kind {
    Suffix,
    ReverseSuffix,
    Prepare,
    Find,
    FindBack,
    Call(Call),
    Walk,
}

impl Kind {
    pub(crate) fn named(name: &[u8]) -> Option<Kind> {
        match name {
            b"msuf" => Some(Kind::Suffix),
            b"rmsuf" => Some(Kind::ReverseSuffix),
            b"prep" => Some(Kind::Prepare),
            b"find" => Some(Kind::Find),
            b"rfind" => Some(Kind::FindBack),
            b"step" => Some(Kind::Call(Call::Step)),
            b"stepb" => Some(Kind::Call(Call::StepBack)),
            b"next" => Some(Kind::Call(Call::Next)),
            b"nextb" => Some(Kind::Call(Call::NextBack)),
            b"walk" => Some(Kind::Walk),
            _ => None,
        }
    }

    // Whether a line of this kind has a haystack behind its needle.
    pub(crate) fn has_haystack(self) -> bool {
        !matches!(self, Kind::Suffix | Kind::ReverseSuffix | Kind::Prepare)
    }
}
