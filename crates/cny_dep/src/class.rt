//! The classes of dependencies.
ghost use Rattle.std.specs.Prelude.{◌≡◌, IfSome, Some};
ghost use Rattle.cny_dep.specs.Dep.{class_text};

/// What kind of thing a dependency names.
#[derive(Clone, Copy, PartialEq, Eq)]
pub enum Class {
    /// A binary interface of the processor and system.
    Abi,
    /// A file, by its path.
    File,
    /// A trove, by its name.
    Trove,
    /// A shared library, by its name.
    Soname,
    /// A user of the system.
    UserInfo,
    /// A group of the system.
    GroupInfo,
    /// A module of Python.
    Python,
    /// A module of Perl.
    Perl,
}

impl Class {
    /// The word that begins the text of a dependency of this class.
    pub fn word(self) -> &'static str
        ensures { result.now ≡ class_text self }
    {
        match self {
            Class::Abi => "abi",
            Class::File => "file",
            Class::Trove => "trove",
            Class::Soname => "soname",
            Class::UserInfo => "userinfo",
            Class::GroupInfo => "groupinfo",
            Class::Python => "python",
            Class::Perl => "perl",
        }
    }

    /// The class with this word; none where there is no such class.
    pub fn of_word(word: &str) -> Option<Class>
        ensures found { IfSome result (λ class. word.now ≡ class_text class) }
        ensures only { (class : Class) → word.now ≡ class_text class → result ≡ Some class }
    {
        match word {
            "abi" => Some(Class::Abi),
            "file" => Some(Class::File),
            "trove" => Some(Class::Trove),
            "soname" => Some(Class::Soname),
            "userinfo" => Some(Class::UserInfo),
            "groupinfo" => Some(Class::GroupInfo),
            "python" => Some(Class::Python),
            "perl" => Some(Class::Perl),
            _ => None,
        }
    }
}
