// Constructors of lists of nodes, which are joined one after the other. All of it is asked for with the first node.
// kept: `let .. else` where a constructor's answer is taken apart, as in composed.rt: document 01 names that form.
ghost use Rattle.std.specs.Prelude.{◌≡◌, ◌&&◌, [], ◌∷◌, ◌+◌, ◌-◌, ◌*◌, ◌<◌, length, take};
ghost use Rattle.build.specs.Solid.{solid};
ghost use Rattle.build.specs.Outcome.{outcome};
ghost use Rattle.build.specs.Constructors.{has, has_all, enclose_made, concat_made, intersperse_made};

use crate::{Asks, Counts, Made, words_of};
use table::{NIL, NodeNo};

impl Counts {
    pub fn has_all(self, ns: &[u32]) -> bool
        ensures { result ≡ has_all self ns.now }
    {
        ns.iter().all(|&n| self.has(NodeNo(n)))
    }

    fn has_with(self, n: NodeNo, ns: &[u32]) -> bool
        ensures { result ≡ has self n.0 && has_all self ns.now }
    {
        self.has(n) && self.has_all(ns)
    }

    // How many of the nodes are no Nil.
    fn solid(self, table: &[u32], ns: &[u32]) -> usize
        ensures { result ≡ solid (take (self.nodes * 4) table.now) ns.now }
    {
        ns.iter()
            .filter(|&&n| !self.is_nil(table, NodeNo(n)))
            .count()
    }

    // How many of so many separators are no Nil.
    fn separators(self, table: &[u32], separator: NodeNo, count: usize) -> usize
        ensures { result ≡ count * solid (take (self.nodes * 4) table.now) (separator.0 ∷ []) }
    {
        if self.is_nil(table, separator) {
            return 0;
        }
        count
    }

    // How many nodes `intersperse` adds to some.
    fn separated_adds(self, table: &[u32], nodes: &[u32], separator: NodeNo) -> usize
        requires { 0 < length nodes.now }
        ensures { result
            ≡ solid (take (self.nodes * 4) table.now) nodes.now
            + (length nodes.now - 1) * solid (take (self.nodes * 4) table.now) (separator.0 ∷ []) - 1 }
    {
        let solid = self.solid(table, nodes) + self.separators(table, separator, nodes.len() - 1);
        solid.saturating_sub(1)
    }

    // Starts from the first; of none one Nil.
    pub fn concat(self, table: &mut [u32], text: &[u8], nodes: &[u32]) -> Made
        ensures { outcome result table.new text.now
            ≡ concat_made self table.old text.now nodes.now }
    {
        let Some((&first, rest)) = nodes.split_first() else {
            return self.nil(table, text);
        };
        let present = self.has_all(nodes);
        let more = self.solid(table, nodes).saturating_sub(1);
        let mut made = self.older(
            table.len(),
            text.len(),
            Asks::of(present, more),
            NodeNo(first),
        );
        for &n in rest {
            let Ok((c, before)) = made else {
                return made;
            };
            made = c.append(table, text, before, NodeNo(n));
        }
        made
    }

    // The node between the two others.
    pub fn enclose(
        self,
        table: &mut [u32],
        text: &[u8],
        n: NodeNo,
        before: NodeNo,
        after: NodeNo,
    ) -> Made
        ensures { outcome result table.new text.now
            ≡ enclose_made self table.old text.now n.0 before.0 after.0 }
    {
        let nodes = [before.0, n.0, after.0];
        self.concat(table, text, &nodes)
    }

    // The separator between each two.
    // kept: one function with `concat` would ask at each of its steps (operands, how many nodes, what is joined) whether a separator is.
    pub fn intersperse(
        self,
        table: &mut [u32],
        text: &[u8],
        nodes: &[u32],
        separator: NodeNo,
    ) -> Made
        ensures { outcome result table.new text.now
            ≡ intersperse_made self table.old text.now nodes.now separator.0 }
    {
        let present = self.has_with(separator, nodes);
        let Some((&first, rest)) = nodes.split_first() else {
            return self.one(table, text, present, words_of(NIL, 0, 0, 0));
        };
        let more = self.separated_adds(table, nodes, separator);
        let mut made = self.older(
            table.len(),
            text.len(),
            Asks::of(present, more),
            NodeNo(first),
        );
        for &n in rest {
            let Ok((c, before)) = made else {
                return made;
            };
            let separated = c.append(table, text, before, separator);
            let Ok((c, last)) = separated else {
                return separated;
            };
            made = c.append(table, text, last, NodeNo(n));
        }
        made
    }
}
