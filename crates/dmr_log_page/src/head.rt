//! What a page begins with.
use crate::clock::DayAndTime;
use crate::frame_kind::FrameKind;
use crate::settings::PageSettings;
use dmr_log_forms::Begin;
use std::fmt;
use std::fmt::Write;

/// How a page looks, on a screen and on paper.
const STYLE: &str = "<style>\
    body{font:14px system-ui,sans-serif;color:#222;max-width:1060px;margin:24px auto;padding:0 10px}\
    h1{font-size:19px;margin:0 0 2px}h2{font-size:14px;margin:26px 0 4px;color:#444}p{margin:2px 0 12px;color:#555}\n\
    table{border-collapse:collapse;font-size:13px;width:100%}\
    td,th{padding:3px 8px;text-align:left;border-bottom:1px solid #eee;white-space:nowrap}th{color:#666;font-weight:600}\n\
    td.n,th.n{text-align:right;font-variant-numeric:tabular-nums}svg{display:block;width:100%;height:auto}\n\
    text{font:11px system-ui,sans-serif;fill:#222}.t{fill:#666;font-size:10px}.l{font-size:10.5px}\n\
    @media print{h2{break-after:avoid}svg,tr{break-inside:avoid}}</style>\n";

/// The kinds of frames in the order of the legend, and how far from its left each stands.
const LEGEND: [(FrameKind, u32); 8] = [
    (FrameKind::Header, 64),
    (FrameKind::Voice, 198),
    (FrameKind::Filled, 254),
    (FrameKind::Packet, 316),
    (FrameKind::LostBlock, 378),
    (FrameKind::Control, 464),
    (FrameKind::NotRepeated, 532),
    (FrameKind::Unreadable, 630),
];

/// The name of a file as a page has it: the last part of a path, in which nothing means anything to a browser.
#[derive(Clone, Copy, Drop)]
struct FileName<'a>(&'a str);

impl FileName<'_> {
    /// What is shown of it.
    fn shown(&self) -> &str {
        if self.0 == "-" {
            return "standard input";
        }
        match self.0.rsplit_once('/') {
            Some((_, last)) => last,
            None => self.0,
        }
    }
}

impl fmt::Display for FileName<'_> {
    fn fmt<W: fmt::Write>(&self, f: &mut fmt::Formatter<W>) -> fmt::Result {
        for letter in self.shown().chars() {
            match letter {
                '&' => f.write_str("&amp;")?,
                '<' => f.write_str("&lt;")?,
                '>' => f.write_str("&gt;")?,
                letter if letter.is_control() => f.write_char('?')?,
                letter => f.write_char(letter)?,
            }
        }
        Ok(())
    }
}

/// What the colours mean.
#[derive(Clone, Copy, Drop)]
struct Legend;

impl fmt::Display for Legend {
    fn fmt<W: fmt::Write>(&self, f: &mut fmt::Formatter<W>) -> fmt::Result {
        write!(f, "<svg viewBox=\"0 0 1040 14\">")?;
        for (kind, left) in &LEGEND {
            let colour = kind.colour();
            let name = kind.name();
            let behind = left.saturating_add(14);
            write!(
                f,
                "\n<rect x=\"{left}\" y=\"2\" width=\"10\" height=\"10\" "
            )?;
            write!(f, "fill=\"{colour}\"/><text class=\"t\" ")?;
            write!(f, "x=\"{behind}\" y=\"11\">{name}</text>")?;
        }
        write!(f, "</svg>\n")
    }
}

/// What a page begins with: the name of the file, the settings, and what the colours mean.
#[derive(Clone, Copy, Drop)]
pub(crate) struct PageHead<'a> {
    /// The name of the file.
    pub(crate) name: &'a str,
    pub(crate) settings: &'a PageSettings,
}

impl fmt::Display for PageHead<'_> {
    fn fmt<W: fmt::Write>(&self, f: &mut fmt::Formatter<W>) -> fmt::Result {
        let name = FileName(self.name);
        let colour = self.settings.colour;
        let begin = Begin {
            start: self.settings.start,
            milliseconds: 0,
        };
        write!(
            f,
            "<!DOCTYPE html><html lang=\"en\"><meta charset=\"utf-8\">"
        )?;
        write!(f, "<meta name=\"viewport\" content=\"width=device-width\">")?;
        write!(f, "<title>{name}</title>{STYLE}<h1>{name}</h1>")?;
        let when = DayAndTime(begin);
        write!(f, "<p>uplink recording{when}; colour code {colour}")?;
        if let Some(address) = self.settings.address {
            write!(f, "; gateway {address}")?;
        }
        write!(f, "</p>\n{Legend}")
    }
}
