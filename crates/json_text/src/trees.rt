//! JSON trees whose texts are borrowed from the text that was read.

ghost use Rattle.std.specs.Prelude.{◌≡◌, option_map};
ghost use Rattle.std.specs.Str.{bytes_eq};
ghost use Rattle.serde_json.specs.Find.{get, get_member};
ghost use Rattle.json_text.specs.Trees.{view, members_view};

/// A JSON value. Its texts are borrowed from the text that was read, or from the memory for reading where they have
/// escapes there, so only arrays and objects own memory.
#[derive(Drop)]
pub enum Tree<'a> {
    /// `null`.
    Null,
    /// True or false.
    Truth(bool),
    /// A number, as it was written.
    Number(&'a str),
    /// A text.
    Text(&'a str),
    /// The elements of an array.
    Array(Vec<Tree<'a>>),
    /// The members of an object, in the order of the text. Of several with one name the last counts.
    Object(Vec<(&'a str, Tree<'a>)>),
}

impl<'a> Tree<'a> {
    /// The last member of that name, where this is an object. It walks the members from the end.
    pub fn get(&self, name: &str) -> Option<&Tree<'a>>
        ensures { option_map (λ v. view v.now) result ≡ get name.now (view self.now) }
    {
        if let Tree::Object(members) = self {
            last_of(members, name)
        } else {
            None
        }
    }
}

/// Whether the two are one name. Lengths are compared before bytes, since most members have another one.
#[inline(always)]
fn is_name(name: &str, other: &str) -> bool
    ensures { result ≡ bytes_eq name.now other.now }
{
    name.len() == other.len() && name == other
}

fn last_of<'t, 'a>(members: &'t Vec<(&'a str, Tree<'a>)>, name: &str) -> Option<&'t Tree<'a>>
    ensures { option_map (λ v. view v.now) result ≡ get_member name.now (members_view members.now.items) }
{
    let mut left = members.len();
    while left > 0 {
        left -= 1;
        let member = &members[left];
        if is_name(name, member.0) {
            return Some(&member.1);
        }
    }
    None
}
