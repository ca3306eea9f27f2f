//! The nodes of a keyring file, met one after the other and written anew in version 2.

ghost use Rattle.std.specs.Prelude.{◌≡◌, option_map};
ghost use Rattle.serde_json.specs.View.{view, items_view};
ghost use Rattle.keyring_file.specs.Room.{HasSpace};
ghost use Rattle.keyring_file.specs.Form.{IsFit};
ghost use Rattle.keyring_file.specs.Migrate.{migrated, migrated_form, migrated_multi};
ghost use Rattle.keyring_file.specs.Migrate.{migrated_optional, migrated_row, is_at, list_if};
ghost use Rattle.keyring_file.specs.Found.{met, WalkGives, form_value};

use crate::form::{Form, Version, form_of, lists_children};
use crate::nodes::{multi_node, plug_node, raw_node};
use crate::walk::Walk;
use esdk_fields::FileRefusal;
use json_values::ReadError;
use serde_json::Value;
use std::alloc::Global;

/// What is written anew: a file of this version, whose raw key of the number `retire`, if one is
/// named, is retired.
#[derive(Clone, Copy)]
pub(crate) struct Plan {
    pub(crate) version: Version,
    pub(crate) retire: Option<u32>,
}

impl<P> Walk<P> {
    /// A node, which may have so many levels, in version 2; and whether the raw key that is to be
    /// retired stands in it. Nodes are numbered and refused as in a tree, but that a keyring which
    /// is handed over counts as one leaf, whether there is one of its name or not.
    #[cycle(migrated)]
    pub(crate) fn migrated(
        &mut self,
        alloc: Global,
        plan: Plan,
        node: &Value,
        levels: u32,
    ) -> Result<(Value, bool), ReadError>
        requires { HasSpace levels (met self.old) }
        ensures { WalkGives (λ made. (view made.0, made.1)) result self.new
            (migrated plan.retire plan.version levels (view node.now) (met self.old)) }
    {
        self.nodes += 1;
        let Some(form) = form_of(plan.version, node) else {
            return Err(ReadError::File(FileRefusal::BadShape(self.nodes)));
        };
        if levels == 0 {
            return Err(ReadError::File(FileRefusal::TooDeep));
        }
        let listed = lists_children(node);
        self.migrated_form(alloc, plan, form, listed, levels - 1)
    }

    /// A node of this form, which stands at the last number. The nodes below it may have so many
    /// levels.
    #[cycle(migrated)]
    fn migrated_form(
        &mut self,
        alloc: Global,
        plan: Plan,
        form: Form<'_>,
        listed: bool,
        levels: u32,
    ) -> Result<(Value, bool), ReadError>
        requires { HasSpace levels (met self.old) }
        ensures { WalkGives (λ made. (view made.0, made.1)) result self.new
            (migrated_form plan.retire (migrated plan.retire plan.version levels) self.old.nodes
            listed (form_value form.entry) (met self.old)) }
    {
        match form {
            Form::Raw {
                namespace,
                name,
                key,
                retired,
            } => {
                let is_meant = is_at(self.nodes, plan.retire);
                self.raw_key(alloc, namespace, name, key)?;
                let node = raw_node(alloc, namespace, name, key, is_meant || retired)?;
                Ok((node, is_meant))
            }
            Form::Plug(name) => {
                self.count(1)?;
                Ok((plug_node(alloc, name)?, false))
            }
            Form::Multi {
                generator,
                children,
            } => self.migrated_multi(alloc, plan, generator, children, listed, levels),
        }
    }

    /// A multi-keyring: its generator, then its children, each with what is below it. A list of
    /// children that is absent stays so.
    #[cycle(migrated)]
    #[tactic(auto, unfolding(crate::specs::Migrate::migrated_multi))]
    fn migrated_multi(
        &mut self,
        alloc: Global,
        plan: Plan,
        generator: Option<&Value>,
        children: &[Value],
        listed: bool,
        levels: u32,
    ) -> Result<(Value, bool), ReadError>
        requires { HasSpace levels (met self.old) }
        ensures { WalkGives (λ made. (view made.0, made.1)) result self.new
            (migrated_multi (migrated plan.retire plan.version levels) listed
            (option_map (λ node. view node.now) generator.entry) (items_view children.now)
            (met self.old)) }
    {
        let (generator, in_generator) = self.migrated_optional(alloc, plan, generator, levels)?;
        let (children, in_children) = self.migrated_row(alloc, plan, children, levels)?;
        let node = multi_node(alloc, generator, list_if(listed, children))?;
        Ok((node, in_generator || in_children))
    }

    /// A node that may be absent.
    #[cycle(migrated)]
    fn migrated_optional(
        &mut self,
        alloc: Global,
        plan: Plan,
        node: Option<&Value>,
        levels: u32,
    ) -> Result<(Option<Value>, bool), ReadError>
        requires { HasSpace levels (met self.old) }
        ensures { WalkGives (λ made. (option_map view made.0, made.1)) result self.new
            (migrated_optional (migrated plan.retire plan.version levels)
            (option_map (λ node. view node.now) node.entry) (met self.old)) }
    {
        match node {
            Some(node) => {
                let (node, found) = self.migrated(alloc, plan, node, levels)?;
                Ok((Some(node), found))
            }
            None => Ok((None, false)),
        }
    }

    /// These nodes, one after the other.
    #[cycle(migrated)]
    fn migrated_row(
        &mut self,
        alloc: Global,
        plan: Plan,
        nodes: &[Value],
        levels: u32,
    ) -> Result<(Vec<Value>, bool), ReadError>
        requires { HasSpace levels (met self.old) }
        ensures { WalkGives (λ made. (items_view made.0.items, made.1)) result self.new
            (migrated_row (migrated plan.retire plan.version levels) (items_view nodes.now)
            (met self.old)) }
    {
        let mut made = Vec::new(alloc);
        let mut found = false;
        for node in nodes {
            let (node, here) = self.migrated(alloc, plan, node, levels)?;
            made.push(node)?;
            found = found || here;
        }
        Ok((made, found))
    }
}

/// Whether the node of this number is the one that is to be retired.
pub(crate) fn is_at(place: u32, retire: Option<u32>) -> bool
    ensures { result ≡ is_at place retire }
{
    match retire {
        Some(number) => place == number,
        None => false,
    }
}

/// The list of these nodes, where there is to be one.
fn list_if(listed: bool, nodes: Vec<Value>) -> Option<Value>
    ensures { option_map view result ≡ list_if listed (items_view nodes.items) }
{
    if listed {
        Some(Value::Array(nodes))
    } else {
        None
    }
}
