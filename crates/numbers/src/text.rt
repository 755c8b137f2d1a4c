// A short text, which lies in the value itself.
ghost use Rattle.std.specs.Prelude.{◌≤◌, length};

use arrayvec::ArrayString;

// What stands behind a value that is printed.
#[derive(Clone, Copy, Debug, PartialEq, Eq)]
pub enum Ending {
    Nothing,
    Newline,
}

#[derive(Clone, Copy, Debug, PartialEq, Eq)]
pub struct Text {
    chars: ArrayString<16>,
    ghost short: { length chars.bytes ≤ 16 },
}

impl Text {
    ghost use Rattle.std.specs.Prelude.{◌≡◌, ◌<◌, ◌++◌};
    ghost use Rattle.arrayvec.specs.ArrayString.{array_string_len};
    ghost use Rattle.numbers.specs.Shown.{shown, ending_text};

    // The text of `chars`, with `ending` behind it.
    pub(crate) fn ended(mut chars: ArrayString<16>, ending: Ending) -> Text
        requires { array_string_len chars < 16 }
        ensures { shown result ≡ chars.bytes ++ ending_text ending }
    {
        match ending {
            Ending::Nothing => {}
            Ending::Newline => chars.push('\n'),
        }
        Text { chars }
    }

    pub fn as_bytes(&self) -> &[u8]
        ensures { result.now ≡ shown self.now }
    {
        self.chars.as_bytes()
    }
}
