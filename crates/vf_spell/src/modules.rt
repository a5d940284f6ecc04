//! Modules and designs as text.

use crate::controls::spell_target;
use crate::expressions::spell_expression;
use crate::spelling::Spelling;
use crate::statements::spell_statement;
use vf_base::Memory;
use vf_tree::{
    Aport, AportForm, AssignPart, Conns, ConnsForm, Dir, DirWord, Hport, Inst, Item, ItemForm,
    Module, Name, NamedConn, Net, NetOrReg, NetWord, ParamPart, ParamWord, Ports, PortsForm,
    Pparam, Range, Source, TreeExpr, Var, VarForm, VarType,
};

fn spell_value(value: &TreeExpr, into: &mut Spelling) -> Result<(), Memory> {
    into.text(b"=")?;
    spell_expression(value, into)
}

fn spell_range(range: &Option<Range>, into: &mut Spelling) -> Result<(), Memory> {
    let Some(range) = range else {
        return Ok(());
    };
    into.place(range.place)?;
    into.text(b"[")?;
    spell_expression(&range.left, into)?;
    into.text(b":")?;
    spell_expression(&range.right, into)?;
    into.text(b"]")
}

fn spell_shape(signed: bool, range: &Option<Range>, into: &mut Spelling) -> Result<(), Memory> {
    if signed {
        into.text(b"signed ")?;
    }
    spell_range(range, into)
}

fn spell_dir(dir: Dir, into: &mut Spelling) -> Result<(), Memory> {
    into.place(dir.place)?;
    match dir.word {
        DirWord::Input => into.text(b"input "),
        DirWord::Output => into.text(b"output "),
    }
}

fn spell_kind(kind: Option<NetOrReg>, into: &mut Spelling) -> Result<(), Memory> {
    match kind {
        Some(NetOrReg::Wire) => into.text(b"wire "),
        Some(NetOrReg::Reg) => into.text(b"reg "),
        None => Ok(()),
    }
}

fn spell_pparam(param: &Pparam, into: &mut Spelling) -> Result<(), Memory> {
    into.place(param.place)?;
    if param.parameter {
        into.text(b"parameter ")?;
    }
    spell_shape(param.signed, &param.range, into)?;
    into.name(&param.name)?;
    spell_value(&param.value, into)
}

fn spell_hport(port: &Hport, into: &mut Spelling) -> Result<(), Memory> {
    into.place(port.place)?;
    spell_dir(port.dir, into)?;
    spell_kind(port.word, into)?;
    spell_shape(port.signed, &port.range, into)?;
    into.name(&port.name)
}

fn spell_aport(port: &Aport, into: &mut Spelling) -> Result<(), Memory> {
    into.place(port.place)?;
    match &port.form {
        AportForm::Declared(port) => spell_hport(port, into),
        AportForm::Name(name) => into.name(name),
    }
}

fn spell_names(names: &[Name], into: &mut Spelling) -> Result<(), Memory> {
    let mut first = true;
    for name in names {
        if !first {
            into.text(b",")?;
        }
        first = false;
        into.name(name)?;
    }
    Ok(())
}

fn spell_ports(ports: &Ports, into: &mut Spelling) -> Result<(), Memory> {
    into.place(ports.place)?;
    match &ports.form {
        PortsForm::Names(names) => spell_names(names.as_slice(), into),
        PortsForm::Declared { first, more } => {
            spell_hport(first, into)?;
            for port in more.as_slice() {
                into.text(b",")?;
                spell_aport(port, into)?;
            }
            Ok(())
        }
    }
}

fn spell_net(net: &Net, into: &mut Spelling) -> Result<(), Memory> {
    into.place(net.place)?;
    into.name(&net.name)?;
    match &net.value {
        Some(value) => spell_value(value, into),
        None => Ok(()),
    }
}

fn spell_nets(nets: &[Net], into: &mut Spelling) -> Result<(), Memory> {
    let mut first = true;
    for net in nets {
        if !first {
            into.text(b",")?;
        }
        first = false;
        spell_net(net, into)?;
    }
    Ok(())
}

fn spell_var(var: &Var, into: &mut Spelling) -> Result<(), Memory> {
    into.place(var.place)?;
    match &var.form {
        VarForm::Plain { name, range } => {
            into.name(name)?;
            spell_range(range, into)
        }
        VarForm::Set { name, value } => {
            into.name(name)?;
            spell_value(value, into)
        }
    }
}

fn spell_vars(vars: &[Var], into: &mut Spelling) -> Result<(), Memory> {
    let mut first = true;
    for var in vars {
        if !first {
            into.text(b",")?;
        }
        first = false;
        spell_var(var, into)?;
    }
    Ok(())
}

fn spell_type(of: &VarType, into: &mut Spelling) -> Result<(), Memory> {
    match of {
        VarType::Reg { signed, range } => {
            into.text(b"reg ")?;
            spell_shape(*signed, range, into)
        }
        VarType::Integer => into.text(b"integer "),
        VarType::Time => into.text(b"time "),
    }
}

fn spell_params(params: &[ParamPart], into: &mut Spelling) -> Result<(), Memory> {
    let mut first = true;
    for param in params {
        if !first {
            into.text(b",")?;
        }
        first = false;
        into.name(&param.name)?;
        spell_value(&param.value, into)?;
    }
    Ok(())
}

fn spell_assigns(parts: &[AssignPart], into: &mut Spelling) -> Result<(), Memory> {
    let mut first = true;
    for part in parts {
        if !first {
            into.text(b",")?;
        }
        first = false;
        spell_target(&part.target, into)?;
        spell_value(&part.value, into)?;
    }
    Ok(())
}

fn spell_named(conn: &NamedConn, into: &mut Spelling) -> Result<(), Memory> {
    into.text(b".")?;
    into.name(&conn.name)?;
    into.text(b"(")?;
    if let Some(value) = &conn.value {
        spell_expression(value, into)?;
    }
    into.text(b")")
}

fn spell_conns(conns: &Conns, into: &mut Spelling) -> Result<(), Memory> {
    into.place(conns.place)?;
    let mut first = true;
    match &conns.form {
        ConnsForm::One(value) => spell_expression(value, into)?,
        ConnsForm::Places(values) => {
            for value in values.as_slice() {
                if !first {
                    into.text(b",")?;
                }
                first = false;
                if let Some(value) = value {
                    spell_expression(value, into)?;
                }
            }
        }
        ConnsForm::Names(names) => {
            for conn in names.as_slice() {
                if !first {
                    into.text(b",")?;
                }
                first = false;
                spell_named(conn, into)?;
            }
        }
    }
    Ok(())
}

fn spell_inst(inst: &Inst, into: &mut Spelling) -> Result<(), Memory> {
    into.place(inst.place)?;
    into.name(&inst.name)?;
    into.text(b"(")?;
    if let Some(conns) = &inst.conns {
        spell_conns(conns, into)?;
    }
    into.text(b")")
}

fn spell_insts(insts: &[Inst], into: &mut Spelling) -> Result<(), Memory> {
    let mut first = true;
    for inst in insts {
        if !first {
            into.text(b",")?;
        }
        first = false;
        spell_inst(inst, into)?;
    }
    Ok(())
}

fn spell_item_form(form: &ItemForm, into: &mut Spelling) -> Result<(), Memory> {
    match form {
        ItemForm::Ports {
            dir,
            word,
            signed,
            range,
            names,
        } => {
            spell_dir(*dir, into)?;
            spell_kind(*word, into)?;
            spell_shape(*signed, range, into)?;
            spell_names(names.as_slice(), into)?;
        }
        ItemForm::Nets {
            word,
            signed,
            range,
            nets,
        } => {
            match word {
                NetWord::Wire => into.text(b"wire ")?,
                NetWord::Tri => into.text(b"tri ")?,
            }
            spell_shape(*signed, range, into)?;
            spell_nets(nets.as_slice(), into)?;
        }
        ItemForm::Vars { of, vars } => {
            spell_type(of, into)?;
            spell_vars(vars.as_slice(), into)?;
        }
        ItemForm::Params {
            word,
            signed,
            range,
            params,
        } => {
            match word {
                ParamWord::Parameter => into.text(b"parameter ")?,
                ParamWord::Localparam => into.text(b"localparam ")?,
            }
            spell_shape(*signed, range, into)?;
            spell_params(params.as_slice(), into)?;
        }
        ItemForm::Assign(parts) => {
            into.text(b"assign ")?;
            spell_assigns(parts.as_slice(), into)?;
        }
        ItemForm::Insts {
            module,
            overrides,
            insts,
        } => {
            into.name(module)?;
            if let Some(conns) = overrides {
                into.text(b"#(")?;
                spell_conns(conns, into)?;
                into.text(b")")?;
            }
            into.text(b" ")?;
            spell_insts(insts.as_slice(), into)?;
        }
        ItemForm::Initial(body) => {
            into.text(b"initial ")?;
            return spell_statement(body, into);
        }
        ItemForm::Always(body) => {
            into.text(b"always ")?;
            return spell_statement(body, into);
        }
    }
    into.text(b";")
}

fn spell_item(item: &Item, into: &mut Spelling) -> Result<(), Memory> {
    into.place(item.place)?;
    spell_item_form(&item.form, into)
}

fn spell_header(module: &Module, into: &mut Spelling) -> Result<(), Memory> {
    if let Some(params) = &module.params {
        into.text(b"#(")?;
        let mut first = true;
        for param in params.as_slice() {
            if !first {
                into.text(b",")?;
            }
            first = false;
            spell_pparam(param, into)?;
        }
        into.text(b")")?;
    }
    let Some(list) = &module.ports else {
        return into.text(b";");
    };
    into.text(b"(")?;
    if let Some(ports) = list {
        spell_ports(ports, into)?;
    }
    into.text(b");")
}

fn spell_module(module: &Module, into: &mut Spelling) -> Result<(), Memory> {
    into.place(module.place)?;
    into.text(b"module ")?;
    into.name(&module.name)?;
    spell_header(module, into)?;
    for item in module.items.as_slice() {
        into.text(b" ")?;
        spell_item(item, into)?;
    }
    into.text(b" endmodule")
}

/// Writes a design, its modules with blanks between them.
pub fn spell_source(source: &Source, into: &mut Spelling) -> Result<(), Memory> {
    into.place(source.place)?;
    let mut first = true;
    for module in source.modules.as_slice() {
        if !first {
            into.text(b" ")?;
        }
        first = false;
        spell_module(module, into)?;
    }
    Ok(())
}
