//! A case: what the top call is run over.
use crate::fault::Fault;
use crate::named::{Named, append, set_once, set_room};
use crate::values::bytes_of;
use crate::words::{add_numbers, halves, name_of, size};
use esdk_fields::Text;
use std::alloc::Global;

/// The name of the file that holds a plug's key.
pub const KEY_FILE: &str = "esdk.key";

/// An object, by what was said of it: the bytes that it gives, how many it gives at once or takes
/// in all, and which of its calls fail.
#[derive(Drop)]
pub struct Plan {
    pub bytes: Vec<u8>,
    pub most: Option<usize>,
    pub failing: Vec<u64>,
}

/// A keyring that is handed in: its name, those of its key, and its shelf's files and failing
/// calls.
#[derive(Drop)]
pub struct PlugPlan {
    pub name: String,
    pub namespace: String,
    pub key_name: String,
    pub files: Vec<Named>,
    pub failing: Vec<u64>,
}

/// What the top call is run over.
#[derive(Drop)]
pub struct Case {
    pub name: String,
    pub words: Vec<Text>,
    pub input: Plan,
    pub output: Plan,
    pub report: Plan,
    pub entropy: Plan,
    pub files: Vec<Named>,
    /// The calls of the shelf that fail.
    pub failing: Vec<u64>,
    pub moments: Vec<u64>,
    pub plugs: Vec<PlugPlan>,
}

impl Plan {
    /// Nothing was said of it.
    fn new(alloc: Global) -> Plan {
        Plan {
            bytes: Vec::new(alloc),
            most: None,
            failing: Vec::new(alloc),
        }
    }

    /// How many of its bytes were given, where these are left.
    pub fn used(&self, left: &[u8]) -> usize {
        self.bytes.len().saturating_sub(left.len())
    }
}

impl PlugPlan {
    /// A plug with these names, of which nothing was said yet.
    fn new(alloc: Global, name: &str, namespace: &str, key_name: &str) -> Result<PlugPlan, Fault> {
        let name = name_of(alloc, name)?;
        let namespace = name_of(alloc, namespace)?;
        let key_name = name_of(alloc, key_name)?;
        Ok(PlugPlan {
            name,
            namespace,
            key_name,
            files: Vec::new(alloc),
            failing: Vec::new(alloc),
        })
    }
}

impl Case {
    /// A case with this name, of which nothing was said yet.
    pub fn new(alloc: Global, text: &str) -> Result<Case, Fault> {
        Ok(Case {
            name: name_of(alloc, text)?,
            words: Vec::new(alloc),
            input: Plan::new(alloc),
            output: Plan::new(alloc),
            report: Plan::new(alloc),
            entropy: Plan::new(alloc),
            files: Vec::new(alloc),
            failing: Vec::new(alloc),
            moments: Vec::new(alloc),
            plugs: Vec::new(alloc),
        })
    }

    /// Takes in a setting: its word, and the rest of its line.
    pub fn set(
        &mut self,
        alloc: Global,
        values: &[Named],
        word: &str,
        rest: &str,
    ) -> Result<(), Fault> {
        match word {
            "word" | "input" | "entropy" | "plug-file" => {
                let bytes = bytes_of(alloc, values, rest)?;
                self.set_bytes(alloc, word, &bytes)
            }
            "file" => {
                let (name, value) = halves(rest);
                let bytes = bytes_of(alloc, values, value)?;
                append(alloc, &mut self.files, name, &bytes)
            }
            _ => self.set_text(alloc, word, rest),
        }
    }

    /// Takes in a setting that has no value.
    fn set_text(&mut self, alloc: Global, word: &str, rest: &str) -> Result<(), Fault> {
        match word {
            "words" => self.add_words(alloc, rest),
            "clock" => add_numbers(&mut self.moments, rest, 0),
            "piece" => set_once(&mut self.input.most, size(rest, 1)?),
            "plug-fail" => add_numbers(&mut self.plug()?.failing, rest, 1),
            _ => {
                let (front, behind) = halves(rest);
                self.set_of(alloc, word, front, behind)
            }
        }
    }

    /// Takes in a setting of a name and what stands behind it.
    fn set_of(&mut self, alloc: Global, word: &str, name: &str, rest: &str) -> Result<(), Fault> {
        match word {
            "fail" => self.fail(name, rest),
            "room" => self.set_room(name, size(rest, 0)?),
            "room-file" => set_room(alloc, &mut self.files, name, size(rest, 0)?),
            "plug" => self.add_plug(alloc, name, rest),
            _ => Err(Fault("unknown setting")),
        }
    }

    /// Takes in a setting that has just a value.
    fn set_bytes(&mut self, alloc: Global, word: &str, bytes: &[u8]) -> Result<(), Fault> {
        match word {
            "word" => self.add_word(alloc, bytes),
            "input" => Ok(self.input.bytes.extend_from_slice(bytes)?),
            "entropy" => Ok(self.entropy.bytes.extend_from_slice(bytes)?),
            _ => append(alloc, &mut self.plug()?.files, KEY_FILE, bytes),
        }
    }

    fn add_words(&mut self, alloc: Global, rest: &str) -> Result<(), Fault> {
        for word in rest.split(' ') {
            self.words.push(Text::new(alloc, word)?)?;
        }
        Ok(())
    }

    fn add_word(&mut self, alloc: Global, bytes: &[u8]) -> Result<(), Fault> {
        let Ok(word) = str::from_utf8(bytes) else {
            return Err(Fault("a word isn't UTF-8"));
        };
        Ok(self.words.push(Text::new(alloc, word)?)?)
    }

    fn set_room(&mut self, object: &str, room: usize) -> Result<(), Fault> {
        match object {
            "output" => set_once(&mut self.output.most, room),
            "report" => set_once(&mut self.report.most, room),
            _ => Err(Fault("unknown object")),
        }
    }

    fn fail(&mut self, object: &str, calls: &str) -> Result<(), Fault> {
        match object {
            "input" => add_numbers(&mut self.input.failing, calls, 1),
            "output" => add_numbers(&mut self.output.failing, calls, 1),
            "report" => add_numbers(&mut self.report.failing, calls, 1),
            "entropy" => add_numbers(&mut self.entropy.failing, calls, 1),
            "shelf" => add_numbers(&mut self.failing, calls, 1),
            _ => Err(Fault("unknown object")),
        }
    }

    fn add_plug(&mut self, alloc: Global, plug: &str, names: &str) -> Result<(), Fault> {
        let (namespace, key_name) = halves(names);
        let plug = PlugPlan::new(alloc, plug, namespace, key_name)?;
        Ok(self.plugs.push(plug)?)
    }

    /// The plug of which was said last.
    fn plug(&mut self) -> Result<&mut PlugPlan, Fault> {
        self.plugs.last_mut().ok_or(Fault("no plug stands before"))
    }
}
