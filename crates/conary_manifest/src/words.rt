// The words of the command line.
use cny_pack::cny_base::TextFault;
use cny_pack::{DepWords, Pattern};
use std::alloc::Global;

/// What the words ask for.
#[derive(Drop)]
pub(crate) struct Request<'a> {
    pub(crate) skip: bool,
    pub(crate) flavor: Option<&'a str>,
    pub(crate) config: Vec<Pattern>,
    pub(crate) requires_: Vec<DepWords<'a>>,
    pub(crate) provides: Vec<DepWords<'a>>,
    pub(crate) name: &'a str,
    pub(crate) version: &'a str,
    pub(crate) dir: &'a str,
}

// What comes next.
#[derive(Clone, Copy)]
enum Wanted<'a> {
    Option,
    Flavor,
    Config,
    Requires,
    RequiresOf(&'a str),
    Provides,
    ProvidesOf(&'a str),
    Plain,
}

// The words so far.
#[derive(Drop)]
struct Reading<'a> {
    wanted: Wanted<'a>,
    skip: bool,
    flavor: Option<&'a str>,
    config: Vec<Pattern>,
    requires_: Vec<DepWords<'a>>,
    provides: Vec<DepWords<'a>>,
    plain: Vec<&'a str>,
}

impl<'a> Reading<'a> {
    fn new(alloc: Global) -> Self {
        Reading {
            wanted: Wanted::Option,
            skip: false,
            flavor: None,
            config: Vec::new(alloc),
            requires_: Vec::new(alloc),
            provides: Vec::new(alloc),
            plain: Vec::new(alloc),
        }
    }

    // An option, or the first word behind them.
    fn take_option(&mut self, word: &'a str) -> Result<(), TextFault> {
        self.wanted = match word {
            "--skip" => {
                self.skip = true;
                Wanted::Option
            }
            "--flavor" if self.flavor.is_none() => Wanted::Flavor,
            "--config" => Wanted::Config,
            "--requires" => Wanted::Requires,
            "--provides" => Wanted::Provides,
            "component" | "package" => {
                self.plain.push(word)?;
                Wanted::Plain
            }
            _ => return Err(TextFault::Bad),
        };
        Ok(())
    }

    fn take(&mut self, alloc: Global, word: &'a str) -> Result<(), TextFault> {
        self.wanted = match self.wanted {
            Wanted::Option => return self.take_option(word),
            Wanted::Flavor => {
                self.flavor = Some(word);
                Wanted::Option
            }
            Wanted::Config => {
                self.config.push(Pattern::read(alloc, word)?)?;
                Wanted::Option
            }
            Wanted::Requires => Wanted::RequiresOf(word),
            Wanted::RequiresOf(component) => {
                self.requires_.push(DepWords {
                    component,
                    dep: word,
                })?;
                Wanted::Option
            }
            Wanted::Provides => Wanted::ProvidesOf(word),
            Wanted::ProvidesOf(component) => {
                self.provides.push(DepWords {
                    component,
                    dep: word,
                })?;
                Wanted::Option
            }
            Wanted::Plain => {
                self.plain.push(word)?;
                Wanted::Plain
            }
        };
        Ok(())
    }

    // Four words behind the options, of which the first says what the name is of.
    fn end(self) -> Result<Request<'a>, TextFault> {
        let Reading {
            wanted: _,
            skip,
            flavor,
            config,
            requires_,
            provides,
            plain,
        } = self;
        match plain.as_slice() {
            [kind, name, version, dir] if (*kind == "component") == name.contains(':') => {
                Ok(Request {
                    skip,
                    flavor,
                    config,
                    requires_,
                    provides,
                    name: *name,
                    version: *version,
                    dir: *dir,
                })
            }
            _ => Err(TextFault::Bad),
        }
    }
}

/// What the words ask for. `Bad` where they aren't as the usage line has them.
pub(crate) fn read_words(alloc: Global, words: &[String]) -> Result<Request<'_>, TextFault> {
    let mut reading = Reading::new(alloc);
    for word in words {
        reading.take(alloc, word.as_str())?;
    }
    reading.end()
}
