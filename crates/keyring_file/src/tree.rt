//! The tree that a JSON keyring file means.

ghost use Rattle.std.specs.Prelude.{◌≡◌, ◌≤◌, true, [], ◌∷◌, is_some, option_map, option_to_list};
ghost use Rattle.std.specs.Prelude.{IfOk};
ghost use Rattle.serde_json.specs.View.{view, items_view};
ghost use Rattle.multi_keyring.specs.Nodes.{forest};
ghost use Rattle.keyring_file.specs.Form.{IsFit, has_node};
ghost use Rattle.keyring_file.specs.Room.{LevelsHaveRoom};
ghost use Rattle.keyring_file.specs.Tree.{tree, formed, multi, optional, row};
ghost use Rattle.keyring_file.specs.Found.{met, WalkGives, wraps_of, form_value};

use crate::form::{Form, Version, form_of};
use crate::walk::Walk;
use esdk_fields::FileRefusal;
use json_values::ReadError;
use keyring_trait::Keyring;
use multi_keyring::{Multi, Node};
use serde_json::Value;
use std::alloc::Global;

impl<P: Keyring> Walk<P> {
    /// The tree of a node of a file of this version, which may have so many levels. K2 `BadShape`
    /// at its number where it has none of the three forms; then K6 `TooDeep` where no level is left
    /// for it; then the refusals of its form.
    #[cycle(tree)]
    pub(crate) fn tree(
        &mut self,
        alloc: Global,
        version: Version,
        node: &Value,
        levels: u32,
    ) -> Result<Node<P>, ReadError>
        requires { LevelsHaveRoom levels (met self.old) }
        ensures { WalkGives (λ node. forest (node ∷ [])) result self.new
            (tree (wraps_of P.meaning) version levels (view node.now) (met self.old)) }
    {
        self.nodes += 1;
        let Some(form) = form_of(version, node) else {
            return Err(ReadError::File(FileRefusal::BadShape(self.nodes)));
        };
        if levels == 0 {
            return Err(ReadError::File(FileRefusal::TooDeep));
        }
        self.formed(alloc, version, form, levels - 1)
    }

    /// The tree of a node of this form, which stands at the last number. The nodes below it may
    /// have so many levels.
    #[cycle(tree)]
    fn formed(
        &mut self,
        alloc: Global,
        version: Version,
        form: Form<'_>,
        levels: u32,
    ) -> Result<Node<P>, ReadError>
        requires room { LevelsHaveRoom levels (met self.old) }
        requires low { levels ≤ 7 }
        requires fit { IsFit (form_value form) }
        ensures { WalkGives (λ node. forest (node ∷ [])) result self.new
            (formed (wraps_of P.meaning) (tree (wraps_of P.meaning) version levels) self.old.nodes
            (form_value form.entry) (met self.old)) }
    {
        match form {
            Form::Raw {
                namespace,
                name,
                key,
                retired,
            } => Ok(Node::Raw(self.raw_leaf(alloc, namespace, name, key, retired)?)),
            Form::Plug(name) => Ok(Node::Handed(self.plug_leaf(alloc, name)?)),
            Form::Multi {
                generator,
                children,
            } => {
                let multi = self.multi(alloc, version, generator, children, levels)?;
                Ok(Node::Multi(Box::new(alloc, multi)?))
            }
        }
    }

    /// A multi-keyring: its generator, then its children, each with what is below it.
    #[cycle(tree)]
    #[tactic(auto, unfolding(crate::specs::Tree::multi))]
    fn multi(
        &mut self,
        alloc: Global,
        version: Version,
        generator: Option<&Value>,
        children: &[Value],
        levels: u32,
    ) -> Result<Multi<P>, ReadError>
        requires room { LevelsHaveRoom levels (met self.old) }
        requires low { levels ≤ 7 }
        requires member { has_node (option_map (λ node. view node.now) generator)
            (items_view children.now) ≡ true }
        ensures { WalkGives (λ multi. multi) result self.new
            (multi (tree (wraps_of P.meaning) version levels)
            (option_map (λ node. view node.now) generator.entry) (items_view children.now)
            (met self.old)) }
    {
        let generator = self.optional(alloc, version, generator, levels)?;
        let children = self.row(alloc, version, children, levels)?;
        match Multi::new(generator, children) {
            Ok(multi) => Ok(multi),
            Err(_refusal) => unreachable!(),
        }
    }

    /// The tree of a node that may be absent.
    #[cycle(tree)]
    fn optional(
        &mut self,
        alloc: Global,
        version: Version,
        node: Option<&Value>,
        levels: u32,
    ) -> Result<Option<Node<P>>, ReadError>
        requires { LevelsHaveRoom levels (met self.old) }
        ensures gives { WalkGives (λ node. forest (option_to_list node)) result self.new
            (optional (tree (wraps_of P.meaning) version levels)
            (option_map (λ node. view node.now) node.entry) (met self.old)) }
        ensures there { IfOk result (λ found. is_some found ≡ is_some node.entry) }
    {
        match node {
            Some(node) => Ok(Some(self.tree(alloc, version, node, levels)?)),
            None => Ok(None),
        }
    }

    /// The trees of these nodes, one after the other.
    #[cycle(tree)]
    fn row(
        &mut self,
        alloc: Global,
        version: Version,
        nodes: &[Value],
        levels: u32,
    ) -> Result<Vec<Node<P>>, ReadError>
        requires { LevelsHaveRoom levels (met self.old) }
        ensures { WalkGives (λ trees. forest trees.items) result self.new
            (row (tree (wraps_of P.meaning) version levels) (items_view nodes.now) (met self.old)) }
    {
        let mut trees = Vec::new(alloc);
        for node in nodes {
            let tree = self.tree(alloc, version, node, levels)?;
            trees.push(tree)?;
        }
        Ok(trees)
    }
}
