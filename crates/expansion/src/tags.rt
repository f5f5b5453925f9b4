// The tag of a search's entry: its node and its parent, the node whose arc led there, in one word. Of two entries with equal distances the one
// with the smaller node comes first.
// No struct: an entry of the queue has two words of the lent scratch, its distance and its tag.
ghost use Rattle.std.specs.Prelude.{◌≡◌, ◌<◌};
ghost use Rattle.expansion.specs.Tags.{tag_of, tag_node, tag_parent};

// The tag of a node and its parent.
pub fn tag_of(node: u32, parent: u32) -> u32
    requires { (node < 65536) × (parent < 65536) }
    ensures { result ≡ tag_of node parent }
{
    node * 65536 + parent
}

// The node of a tag.
pub fn tag_node(tag: u32) -> u32
    ensures { result ≡ tag_node tag }
{
    tag / 65536
}

// The parent of a tag.
pub fn tag_parent(tag: u32) -> u32
    ensures { result ≡ tag_parent tag }
{
    tag % 65536
}
