ghost use Rattle.std.specs.Prelude.{◌≡◌, ◌<◌, length, is_some, IsSome, IfOk, IfErr, OnOk, OnErr};
ghost use Rattle.std.specs.Option.{option_copied, option_and_then};
ghost use Rattle.shell_vars.specs.Value.{checked, element_set, assigned, appended};
ghost use Rattle.shell_vars.specs.Store.{held_at, binding_at, bind_at, unset_here, kinds};
ghost use Rattle.shell_vars.specs.Stores.{Refuses};
ghost use Rattle.shell_vars.specs.Changes.{Plans, PlansSome, CanChange, changed, gained};
ghost use Rattle.shell_vars.specs.declared.error.VarErr.TheVariants as refusal;
ghost use Rattle.shell_vars.specs.Calls as call;
ghost use Rattle.shell_vars.specs.Calls.{rewritten, written, lessened, is_readonly_global as readonly_in_global};

use crate::attr::Attr;
use crate::binding::Binding;
use crate::change::Change;
use crate::error::VarErr;
use crate::plan::{plan_append, plan_assign, plan_element, plan_nowhere, plan_set, plan_without};
use crate::store::Store;
use crate::value::Value;
use eb_bytes::Bytes;

impl Store {
    // How the binding of a name in the frame with so many inside it gets this value.
    fn plan_set_at(&self, depth: usize, name: &[u8], value: Value) -> Result<Change, VarErr>
        requires { depth < length self.now }
        ensures { Plans result (rewritten (λ old. checked value) (held_at depth name.now self.now)) (held_at depth name.now self.now) }
    {
        let mark = Binding::unset_here();
        plan_set(self.held(depth, name, &mark), value)
    }

    // How it gets this text as an element.
    fn plan_element_at(
        &self,
        depth: usize,
        name: &[u8],
        at: i64,
        text: Bytes,
    ) -> Result<Change, VarErr>
        requires { depth < length self.now }
        ensures { Plans result (rewritten (element_set at text) (held_at depth name.now self.now)) (held_at depth name.now self.now) }
    {
        let mark = Binding::unset_here();
        plan_element(self.held(depth, name, &mark), at, text)
    }

    // How it, or the element that a subscript means, is given this text.
    fn plan_assign_at(
        &self,
        depth: usize,
        name: &[u8],
        at: Option<i64>,
        text: Bytes,
    ) -> Result<Change, VarErr>
        requires { depth < length self.now }
        ensures { Plans result (rewritten (assigned at text) (held_at depth name.now self.now)) (held_at depth name.now self.now) }
    {
        let mark = Binding::unset_here();
        plan_assign(self.held(depth, name, &mark), at, text)
    }

    // How it gets a value after its own.
    fn plan_append_at(&self, depth: usize, name: &[u8], value: Value) -> Result<Change, VarErr>
        requires { depth < length self.now }
        ensures { Plans result (rewritten (appended value) (held_at depth name.now self.now)) (held_at depth name.now self.now) }
    {
        let mark = Binding::unset_here();
        plan_append(self.held(depth, name, &mark), value)
    }

    // How it loses an element, if it has that.
    fn plan_without_at(&self, depth: usize, name: &[u8], at: i64) -> Result<Option<Change>, VarErr>
        requires { depth < length self.now }
        ensures { PlansSome result (lessened at (held_at depth name.now self.now)) (held_at depth name.now self.now) }
    {
        let mark = Binding::unset_here();
        plan_without(self.held(depth, name, &mark), at)
    }

    // Whether the binding is readonly.
    fn is_readonly(&self, depth: usize, name: &[u8]) -> bool
        requires { depth < length self.now }
        ensures { result ≡ (held_at depth name.now self.now).attr.readonly }
    {
        match self.binding(depth, name) {
            Some(binding) => binding.attr.readonly,
            None => false,
        }
    }

    // Whether the name is seen in the global frame, and is readonly there.
    fn is_readonly_global(&self, name: &[u8]) -> bool
        ensures { result ≡ readonly_in_global name.now self.now }
    {
        match self.holder(name) {
            Some(depth) => depth == self.global_depth() && self.is_readonly(depth, name),
            None => false,
        }
    }

    /// The value that is seen.
    pub(crate) fn get(&self, name: &[u8]) -> Option<&Value>
        ensures { option_copied result ≡ call.get name.now self.now }
    {
        let depth = self.holder(name)?;
        self.value_at(depth, name)
    }

    /// The value in the global frame.
    pub(crate) fn global(&self, name: &[u8]) -> Option<&Value>
        ensures { option_copied result ≡ call.global name.now self.now }
    {
        self.value_at(self.global_depth(), name)
    }

    /// The binding in the innermost Call frame.
    pub(crate) fn local_binding(&self, name: &[u8]) -> Option<&Binding>
        ensures { option_copied result ≡ call.local_binding name.now self.now }
    {
        let depth = self.call_depth()?;
        self.binding(depth, name)
    }

    // The value in the frame with so many inside it.
    fn value_at(&self, depth: usize, name: &[u8]) -> Option<&Value>
        requires { depth < length self.now }
        ensures { option_copied result ≡ option_and_then (λ b. b.value) (binding_at depth name.now self.now) }
    {
        match self.binding(depth, name) {
            Some(binding) => binding.value.as_ref(),
            None => None,
        }
    }

    /// The attributes that are seen.
    pub(crate) fn attr(&self, name: &[u8]) -> Attr
        ensures { result ≡ call.attr name.now self.now }
    {
        match self.holder(name) {
            Some(depth) => self.attr_at(depth, name),
            None => Attr::none(),
        }
    }

    // The attributes in the frame with so many inside it.
    fn attr_at(&self, depth: usize, name: &[u8]) -> Attr
        requires { depth < length self.now }
        ensures { result ≡ (held_at depth name.now self.now).attr }
    {
        match self.binding(depth, name) {
            Some(binding) => binding.attr,
            None => Attr::none(),
        }
    }

    /// Writes a value into the frame with so many inside it.
    pub(crate) fn write(&mut self, depth: usize, name: &[u8], value: Value) -> Result<(), VarErr>
        requires { depth < length self.old }
        ensures ok { OnOk result (written depth name.now (λ old. checked value) self.old ≡ Ok self.new) }
        ensures refused { IfErr result (λ e. Refuses e (written depth name.now (λ old. checked value) self.old)) }
        ensures unchanged { OnErr result (self.new ≡ self.old) }
        ensures kinds { kinds self.new ≡ kinds self.old }
    {
        let change = self.plan_set_at(depth, name, value)?;
        self.change(depth, name, change)
    }

    /// Writes an element where an assignment goes.
    pub(crate) fn set_elem(&mut self, name: &[u8], at: i64, text: Bytes) -> Result<(), VarErr>
        ensures ok { OnOk result (call.set_elem name.now at text self.old ≡ Ok self.new) }
        ensures refused { IfErr result (λ e. Refuses e (call.set_elem name.now at text self.old)) }
        ensures unchanged { OnErr result (self.new ≡ self.old) }
        ensures kinds { kinds self.new ≡ kinds self.old }
    {
        let depth = self.target(name);
        let change = self.plan_element_at(depth, name, at, text)?;
        self.change(depth, name, change)
    }

    /// Gives a text to a name, or to an element of it, where an assignment goes.
    pub(crate) fn assign(&mut self, name: &[u8], at: Option<i64>, text: Bytes) -> Result<(), VarErr>
        ensures ok { OnOk result (call.assign name.now at text self.old ≡ Ok self.new) }
        ensures refused { IfErr result (λ e. Refuses e (call.assign name.now at text self.old)) }
        ensures unchanged { OnErr result (self.new ≡ self.old) }
        ensures kinds { kinds self.new ≡ kinds self.old }
    {
        let depth = self.target(name);
        let change = self.plan_assign_at(depth, name, at, text)?;
        self.change(depth, name, change)
    }

    /// Appends a value where an assignment goes.
    pub(crate) fn append(&mut self, name: &[u8], value: Value) -> Result<(), VarErr>
        ensures ok { OnOk result (call.append name.now value self.old ≡ Ok self.new) }
        ensures refused { IfErr result (λ e. Refuses e (call.append name.now value self.old)) }
        ensures unchanged { OnErr result (self.new ≡ self.old) }
        ensures kinds { kinds self.new ≡ kinds self.old }
    {
        let depth = self.target(name);
        let change = self.plan_append_at(depth, name, value)?;
        self.change(depth, name, change)
    }

    /// Binds a name in the innermost Call frame.
    pub(crate) fn local(&mut self, name: &[u8], value: Option<Value>) -> Result<(), VarErr>
        ensures ok { OnOk result (call.local name.now value self.old ≡ Ok self.new) }
        ensures refused { IfErr result (λ e. Refuses e (call.local name.now value self.old)) }
        ensures unchanged { OnErr result (self.new ≡ self.old) }
        ensures kinds { kinds self.new ≡ kinds self.old }
    {
        let Some(depth) = self.call_depth() else {
            return Err(VarErr::LocalOutside);
        };
        if self.is_readonly_global(name) {
            return Err(VarErr::Readonly);
        }
        self.local_at(depth, name, value)
    }

    // Binds a name in the frame with so many inside it.
    fn local_at(&mut self, depth: usize, name: &[u8], value: Option<Value>) -> Result<(), VarErr>
        requires { depth < length self.old }
        ensures ok { OnOk result (call.local_at depth name.now value self.old ≡ Ok self.new) }
        ensures refused { IfErr result (λ e. Refuses e (call.local_at depth name.now value self.old)) }
        ensures unchanged { OnErr result (self.new ≡ self.old) }
        ensures kinds { kinds self.new ≡ kinds self.old }
    {
        match value {
            Some(value) => self.write(depth, name, value),
            None => self.declare_at(depth, name),
        }
    }

    // Gives a name the mark there, unless it is bound there.
    fn declare_at(&mut self, depth: usize, name: &[u8]) -> Result<(), VarErr>
        requires { depth < length self.old }
        ensures ok { OnOk result (call.local_at depth name.now None self.old ≡ Ok self.new) }
        ensures refused { IfErr result (λ e. Refuses e (call.local_at depth name.now None self.old)) }
        ensures unchanged { OnErr result (self.new ≡ self.old) }
        ensures kinds { kinds self.new ≡ kinds self.old }
    {
        if self.binding(depth, name).is_some() {
            return Ok(());
        }
        self.change(depth, name, Change::Unset)
    }

    /// Adds attributes where an assignment goes.
    pub(crate) fn mark(&mut self, name: &[u8], attr: Attr) -> Result<(), VarErr>
        ensures ok { OnOk result (call.mark name.now attr self.old ≡ Ok self.new) }
        ensures refused { IfErr result (λ e. Refuses e (call.mark name.now attr self.old)) }
        ensures unchanged { OnErr result (self.new ≡ self.old) }
        ensures kinds { kinds self.new ≡ kinds self.old }
    {
        let depth = self.target(name);
        self.change(depth, name, Change::Mark(attr))
    }

    /// Unsets a name, and answers whether it had a value.
    pub(crate) fn unset(&mut self, name: &[u8]) -> Result<bool, VarErr>
        ensures ok { OnOk result (call.unset name.now self.old ≡ Ok self.new) }
        ensures answer { IfOk result (λ had. had ≡ is_some (call.get name.now self.old)) }
        ensures refused { IfErr result (λ e. Refuses e (call.unset name.now self.old)) }
        ensures unchanged { OnErr result (self.new ≡ self.old) }
        ensures kinds { kinds self.new ≡ kinds self.old }
    {
        let had = self.get(name).is_some();
        let Some(depth) = self.holder(name) else {
            return Ok(had);
        };
        if self.is_readonly(depth, name) {
            return Err(VarErr::Readonly);
        }
        self.unset_at(depth, name)?;
        Ok(had)
    }

    // Leaves the mark in the innermost Call frame, and no binding in another frame.
    fn unset_at(&mut self, depth: usize, name: &[u8]) -> Result<(), VarErr>
        requires within { depth < length self.old }
        requires bound { IsSome (binding_at depth name.now self.old) }
        ensures ok { OnOk result (self.new ≡ call.unset_at depth name.now self.old) }
        ensures memory { IfErr result (λ e. e ≡ refusal.Memory) }
        ensures unchanged { OnErr result (self.new ≡ self.old) }
        ensures kinds { kinds self.new ≡ kinds self.old }
    {
        if self.call_depth() == Some(depth) {
            return self.lessen(depth, name, Change::Unset);
        }
        self.unbind(depth, name);
        Ok(())
    }

    // Makes a change that adds nothing to the bytes of a binding that is there.
    fn lessen(&mut self, depth: usize, name: &[u8], change: Change) -> Result<(), VarErr>
        requires within { depth < length self.old }
        requires bound { IsSome (binding_at depth name.now self.old) }
        requires can { CanChange change (held_at depth name.now self.old) }
        requires less { gained change ≡ 0 }
        ensures ok { OnOk result (self.new ≡ bind_at depth name.now (changed change (held_at depth name.now self.old)) self.old) }
        ensures memory { IfErr result (λ e. e ≡ refusal.Memory) }
        ensures unchanged { OnErr result (self.new ≡ self.old) }
        ensures kinds { kinds self.new ≡ kinds self.old }
    {
        let _ = self.bytes_used();
        self.change(depth, name, change)
    }

    /// Takes an element away from the value that is seen.
    pub(crate) fn unset_elem(&mut self, name: &[u8], at: i64) -> Result<(), VarErr>
        ensures ok { OnOk result (call.unset_elem name.now at self.old ≡ Ok self.new) }
        ensures refused { IfErr result (λ e. Refuses e (call.unset_elem name.now at self.old)) }
        ensures unchanged { OnErr result (self.new ≡ self.old) }
        ensures kinds { kinds self.new ≡ kinds self.old }
    {
        let Some(depth) = self.holder(name) else {
            return plan_nowhere(at);
        };
        match self.plan_without_at(depth, name, at)? {
            Some(change) => self.lessen(depth, name, change),
            None => Ok(()),
        }
    }

    /// Removes the binding of a name in the global frame.
    pub(crate) fn unset_global(&mut self, name: &[u8]) -> Result<(), VarErr>
        ensures ok { OnOk result (call.unset_global name.now self.old ≡ Ok self.new) }
        ensures refused { IfErr result (λ e. Refuses e (call.unset_global name.now self.old)) }
        ensures unchanged { OnErr result (self.new ≡ self.old) }
        ensures kinds { kinds self.new ≡ kinds self.old }
    {
        let depth = self.global_depth();
        if self.is_readonly(depth, name) {
            return Err(VarErr::Readonly);
        }
        self.unbind(depth, name);
        Ok(())
    }
}
